//! The counters by their names and numbers.

ghost use Rattle.std.specs.Prelude.{◌≡◌, ◌==◌};
ghost use Rattle.std.specs.List.{find};
ghost use Rattle.data_counters.specs.Counters.{number_of};

/// What a filter counts. A frame of more than 14 bytes raises `TotalPackets` once, and at most one other counter,
/// which says why the frame was passed or dropped.
#[derive(Clone, Copy, Debug, PartialEq, Eq)]
pub enum Counter {
    /// Frames of more than 14 bytes.
    TotalPackets = 1,
    /// ARP requests and replies for this host, or for any where it has no address.
    PassedArp = 2,
    /// ARP packets for other than Ethernet and IPv4.
    PassedArpNonIpv4 = 3,
    /// ARP packets that are neither request nor reply.
    PassedArpUnknown = 4,
    /// ARP replies that aren't broadcast.
    PassedArpUnicastReply = 5,
    /// DHCP to this host.
    PassedDhcp = 6,
    /// IPv4 packets, where multicast isn't filtered.
    PassedIpv4 = 7,
    /// IPv4 packets, where multicast is filtered.
    PassedIpv4Unicast = 8,
    /// IPv6 packets other than ICMPv6, where multicast isn't filtered.
    PassedIpv6NonIcmp = 9,
    /// IPv6 packets to no multicast address, where multicast is filtered.
    PassedIpv6UnicastNonIcmp = 10,
    /// ICMPv6 packets that no other line answers.
    PassedIpv6Icmp = 11,
    /// Other frames that aren't broadcast.
    PassedNonIpUnicast = 12,
    /// 802.3 frames.
    Dropped8023Frame = 13,
    /// Frames of a denied ethertype.
    DroppedEthertypeDenied = 14,
    /// Other frames that are broadcast.
    DroppedEthBroadcast = 15,
    /// ARP replies whose sender has no address.
    DroppedArpReplySpaNoHost = 16,
    /// Gratuitous ARP for no address.
    DroppedGarpReply = 17,
    /// ARP packets for another host.
    DroppedArpOtherHost = 18,
    /// IPv4 packets in a broadcast frame.
    DroppedIpv4L2Broadcast = 19,
    /// IPv4 packets to 255.255.255.255.
    DroppedIpv4BroadcastAddr = 20,
    /// IPv4 packets to the broadcast address of the host's net.
    DroppedIpv4BroadcastNet = 21,
    /// IPv4 packets to a multicast address.
    DroppedIpv4Multicast = 22,
    /// Answers to a TCP keepalive.
    DroppedIpv4KeepaliveAck = 23,
    /// Router solicitations.
    DroppedIpv6RouterSolicitation = 24,
    /// Neighbor advertisements to ff02::/120.
    DroppedIpv6MulticastNa = 25,
    /// IPv6 packets to a multicast address.
    DroppedIpv6Multicast = 26,
    /// Router advertisements that say nothing new.
    DroppedRa = 27,
    /// NAT keepalives over UDP (RFC 3948, section 2.3).
    DroppedIpv4NattKeepalive = 28,
}

/// How many counters there are.
pub const COUNTER_COUNT: u8 = 28;

/// All counters, in the order of their numbers.
pub const COUNTERS: [Counter; COUNTER_COUNT as usize] = [
    Counter::TotalPackets,
    Counter::PassedArp,
    Counter::PassedArpNonIpv4,
    Counter::PassedArpUnknown,
    Counter::PassedArpUnicastReply,
    Counter::PassedDhcp,
    Counter::PassedIpv4,
    Counter::PassedIpv4Unicast,
    Counter::PassedIpv6NonIcmp,
    Counter::PassedIpv6UnicastNonIcmp,
    Counter::PassedIpv6Icmp,
    Counter::PassedNonIpUnicast,
    Counter::Dropped8023Frame,
    Counter::DroppedEthertypeDenied,
    Counter::DroppedEthBroadcast,
    Counter::DroppedArpReplySpaNoHost,
    Counter::DroppedGarpReply,
    Counter::DroppedArpOtherHost,
    Counter::DroppedIpv4L2Broadcast,
    Counter::DroppedIpv4BroadcastAddr,
    Counter::DroppedIpv4BroadcastNet,
    Counter::DroppedIpv4Multicast,
    Counter::DroppedIpv4KeepaliveAck,
    Counter::DroppedIpv6RouterSolicitation,
    Counter::DroppedIpv6MulticastNa,
    Counter::DroppedIpv6Multicast,
    Counter::DroppedRa,
    Counter::DroppedIpv4NattKeepalive,
];

/// The first of these counters that has a number.
fn with_number(counters: &[Counter], n: u8) -> Option<Counter>
    ensures { result ≡ find (λ c. number_of c == n) counters.now }
{
    match counters {
        [first, _rest @ ..] if first.number() == n => Some(*first),
        [_first, rest @ ..] => with_number(rest, n),
        [] => None,
    }
}

impl Counter {
    ghost use Rattle.std.specs.Prelude.{◌≡◌, ◌<◌, ◌≤◌, ◌⊎◌, ◌↔◌, IsNone};
    ghost use Rattle.data_counters.specs.Counters.{name_of, counter_of, counter_count};

    /// The counter's number, from 1 to 28.
    pub fn number(self) -> u8
        ensures value { result ≡ number_of self }
        ensures range { (1 ≤ result) × (result ≤ counter_count) }
    {
        self as u8
    }

    /// The counter's name in reports, as `TOTAL_PACKETS`.
    pub fn name(self) -> &'static str
        ensures { result.now ≡ name_of self }
    {
        match self {
            Counter::TotalPackets => "TOTAL_PACKETS",
            Counter::PassedArp => "PASSED_ARP",
            Counter::PassedArpNonIpv4 => "PASSED_ARP_NON_IPV4",
            Counter::PassedArpUnknown => "PASSED_ARP_UNKNOWN",
            Counter::PassedArpUnicastReply => "PASSED_ARP_UNICAST_REPLY",
            Counter::PassedDhcp => "PASSED_DHCP",
            Counter::PassedIpv4 => "PASSED_IPV4",
            Counter::PassedIpv4Unicast => "PASSED_IPV4_UNICAST",
            Counter::PassedIpv6NonIcmp => "PASSED_IPV6_NON_ICMP",
            Counter::PassedIpv6UnicastNonIcmp => "PASSED_IPV6_UNICAST_NON_ICMP",
            Counter::PassedIpv6Icmp => "PASSED_IPV6_ICMP",
            Counter::PassedNonIpUnicast => "PASSED_NON_IP_UNICAST",
            Counter::Dropped8023Frame => "DROPPED_802_3_FRAME",
            Counter::DroppedEthertypeDenied => "DROPPED_ETHERTYPE_DENIED",
            Counter::DroppedEthBroadcast => "DROPPED_ETH_BROADCAST",
            Counter::DroppedArpReplySpaNoHost => "DROPPED_ARP_REPLY_SPA_NO_HOST",
            Counter::DroppedGarpReply => "DROPPED_GARP_REPLY",
            Counter::DroppedArpOtherHost => "DROPPED_ARP_OTHER_HOST",
            Counter::DroppedIpv4L2Broadcast => "DROPPED_IPV4_L2_BROADCAST",
            Counter::DroppedIpv4BroadcastAddr => "DROPPED_IPV4_BROADCAST_ADDR",
            Counter::DroppedIpv4BroadcastNet => "DROPPED_IPV4_BROADCAST_NET",
            Counter::DroppedIpv4Multicast => "DROPPED_IPV4_MULTICAST",
            Counter::DroppedIpv4KeepaliveAck => "DROPPED_IPV4_KEEPALIVE_ACK",
            Counter::DroppedIpv6RouterSolicitation => "DROPPED_IPV6_ROUTER_SOLICITATION",
            Counter::DroppedIpv6MulticastNa => "DROPPED_IPV6_MULTICAST_NA",
            Counter::DroppedIpv6Multicast => "DROPPED_IPV6_MULTICAST",
            Counter::DroppedRa => "DROPPED_RA",
            Counter::DroppedIpv4NattKeepalive => "DROPPED_IPV4_NATT_KEEPALIVE",
        }
    }

    /// The counter of a number. There is none exactly for 0 and above 28.
    pub fn from_number(n: u8) -> Option<Counter>
        ensures counter { result ≡ counter_of n }
        ensures none { IsNone result ↔ ((n ≡ 0) ⊎ (counter_count < n)) }
    {
        with_number(&COUNTERS, n)
    }
}
