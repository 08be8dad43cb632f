//! The state of a filter.

ghost use Rattle.std.specs.Prelude.{◌≡◌};

/// The host's IPv4 address.
#[derive(Clone, Copy, Debug, PartialEq, Eq)]
pub struct Address {
    /// The address as a big-endian number.
    pub ip: u32,
    /// The length of the net's prefix in bits, at most 32 in a state.
    pub prefix: u32,
}

impl Address {
    ghost use Rattle.std.specs.Prelude.{◌≤◌};
    ghost use Rattle.policy_state.specs.Ip4.{net_broadcast_of};

    /// The broadcast address of the address's net: all bits after the prefix are set (RFC 919, section 7).
    pub fn net_broadcast(&self) -> u32
        requires { self.now.prefix ≤ 32 }
        ensures { result ≡ net_broadcast_of self.now }
    {
        let host_bits = (1_u64 << (32 - self.prefix)) - 1;
        self.ip | host_bits as u32
    }
}

/// A TCP keepalive as this host sent it. Addresses are big-endian numbers.
#[derive(Clone, Copy, Debug, PartialEq, Eq)]
pub struct Keepalive {
    pub local: u32,
    pub local_port: u16,
    pub remote: u32,
    pub remote_port: u16,
    pub sequence: u32,
    pub acknowledgement: u32,
}

impl Keepalive {
    ghost use Rattle.policy_state.specs.Ip4.{ends_of, opening_of};

    /// The addresses of a packet that answers it, source and then destination: the remote one and the local one.
    pub fn answer_ends(&self) -> [u8; 8]
        ensures { result ≡ ends_of self.now }
    {
        let [a, b, c, d] = self.remote.to_be_bytes();
        let [e, f, g, h] = self.local.to_be_bytes();
        [a, b, c, d, e, f, g, h]
    }

    /// The first 12 bytes of a segment that answers it (RFC 9293, section 3.1): the remote port, the local port, the
    /// number that the keepalive acknowledged, and the number after the keepalive's own.
    pub fn answer_opening(&self) -> [u8; 12]
        ensures { result ≡ opening_of self.now }
    {
        let [a, b] = self.remote_port.to_be_bytes();
        let [c, d] = self.local_port.to_be_bytes();
        let [e, f, g, h] = self.acknowledgement.to_be_bytes();
        let [i, j, k, l] = self.sequence.wrapping_add(1).to_be_bytes();
        [a, b, c, d, e, f, g, h, i, j, k, l]
    }
}

/// The state of a filter, which updates change.
#[derive(Clone, Copy, Debug, PartialEq, Eq)]
pub struct FilterState {
    /// Whether multicast is filtered.
    pub multicast: bool,
    /// Whether the host dozes.
    pub doze: bool,
    pub address: Option<Address>,
    /// The keepalives by their slots, 0 to 7.
    pub keepalives: [Option<Keepalive>; 8],
}

impl FilterState {
    ghost use Rattle.std.specs.Prelude.{◌≤◌, is_some};
    ghost use Rattle.std.specs.List.{list_any, count_by};
    ghost use Rattle.policy_state.specs.States.{start};

    /// The state at the start: all off and empty.
    pub fn start() -> FilterState
        ensures { result ≡ start }
    {
        FilterState {
            multicast: false,
            doze: false,
            address: None,
            keepalives: [None; 8],
        }
    }

    /// Whether a slot holds a keepalive.
    pub fn holds_keepalive(&self) -> bool
        ensures { result ≡ list_any is_some self.now.keepalives }
    {
        self.keepalives.iter().any(|slot| slot.is_some())
    }

    /// How many slots hold a keepalive, at most 8.
    pub fn count_keepalives(&self) -> u32
        ensures value { result ≡ count_by is_some self.now.keepalives }
        ensures most { result ≤ 8 }
    {
        let mut count = 0;
        for slot in &self.keepalives {
            if slot.is_some() {
                count += 1;
            }
        }
        count
    }
}
