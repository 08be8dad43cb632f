//! Words that spell addresses and ethertypes.

ghost use Rattle.std.specs.Prelude.{◌≡◌, ℕ, List, IfSome, IsNone, Some, ◌↔◌};
ghost use Rattle.std.specs.Option.{option_map};
ghost use Rattle.policy_state.specs.declared.state.Address.{Address as AddressValue};
ghost use Rattle.script_text.specs.declared.words.Endpoint.{Endpoint as EndpointValue};
ghost use Rattle.script_text.specs.Spelling.{SpellsMac, SpellsEthertype, SpellsIp, SpellsAddress, SpellsEndpoint};
ghost use Rattle.script_text.specs.WordReading.{mac_of, ethertype_of, cut_of, ip_of, address_of, endpoint_of};

use crate::digits::byte;
use crate::numbers::read_number;
use policy_state::Address;
use std::net::Ipv4Addr;

/// An IPv4 address and a port.
#[derive(Clone, Copy, Debug, PartialEq, Eq)]
pub struct Endpoint {
    /// The address as a big-endian number.
    pub ip: u32,
    pub port: u16,
}

#[tactic(auto, unfolding(crate::specs::WordReading::mac_of))]
fn mac_in(word: &[u8]) -> Option<[u8; 6]>
    ensures { result ≡ mac_of word.now }
{
    let [
        a,
        b,
        b':',
        c,
        d,
        b':',
        e,
        f,
        b':',
        g,
        h,
        b':',
        i,
        j,
        b':',
        k,
        l,
    ] = word
    else {
        return None;
    };
    Some([
        byte(*a, *b)?,
        byte(*c, *d)?,
        byte(*e, *f)?,
        byte(*g, *h)?,
        byte(*i, *j)?,
        byte(*k, *l)?,
    ])
}

/// The MAC that a word spells: six pairs of lower-case digits with colons between them.
pub fn read_mac(word: &[u8]) -> Option<[u8; 6]>
    ensures found { IfSome result (λ mac. SpellsMac word.now mac) }
    ensures only { (mac : List ℕ) → SpellsMac word.now mac → result ≡ Some mac }
    ensures none { IsNone result ↔ ((mac : List ℕ) → ¬ SpellsMac word.now mac) }
    // By a function that computes.
    ensures exact { result ≡ mac_of word.now }
{
    mac_in(word)
}

#[tactic(auto, unfolding(crate::specs::WordReading::ethertype_of))]
fn ethertype_in(word: &[u8]) -> Option<u16>
    ensures { result ≡ ethertype_of word.now }
{
    let [a, b, c, d] = word else {
        return None;
    };
    let high = byte(*a, *b)?;
    let low = byte(*c, *d)?;
    Some(u16::from_be_bytes([high, low]))
}

/// The ethertype that a word spells: four lower-case digits.
pub fn read_ethertype(word: &[u8]) -> Option<u16>
    ensures found { IfSome result (λ e. SpellsEthertype word.now e) }
    ensures only { (e : ℕ) → SpellsEthertype word.now e → result ≡ Some e }
    ensures none { IsNone result ↔ ((e : ℕ) → ¬ SpellsEthertype word.now e) }
    // By a function that computes.
    ensures exact { result ≡ ethertype_of word.now }
{
    ethertype_in(word)
}

/// What stands before the first such byte, and what stands behind it.
#[tactic(auto, unfolding(crate::specs::WordReading::cut_of))]
pub(crate) fn cut(word: &[u8], byte: u8) -> Option<(&[u8], &[u8])>
    ensures { option_map (λ parts. (parts.0.now, parts.1.now)) result ≡ cut_of byte word.now }
{
    let Some(at) = word.iter().position(|b| *b == byte) else {
        return None;
    };
    Some((&word[..at], &word[at + 1..]))
}

#[tactic(auto, unfolding(crate::specs::WordReading::ip_of))]
fn ip_in(word: &[u8]) -> Option<u32>
    ensures { result ≡ ip_of word.now }
{
    match Ipv4Addr::parse_ascii(word) {
        Ok(ip) => Some(ip.to_bits()),
        Err(_) => None,
    }
}

/// The IPv4 address that a word spells, as a big-endian number: four decimal numbers up to 255 with dots between them.
pub fn read_ip(word: &[u8]) -> Option<u32>
    ensures found { IfSome result (λ ip. SpellsIp word.now ip) }
    ensures only { (ip : ℕ) → SpellsIp word.now ip → result ≡ Some ip }
    ensures none { IsNone result ↔ ((ip : ℕ) → ¬ SpellsIp word.now ip) }
    // By a function that computes.
    ensures exact { result ≡ ip_of word.now }
{
    ip_in(word)
}

#[tactic(auto, unfolding(crate::specs::WordReading::address_of))]
fn address_in(word: &[u8]) -> Option<Address>
    ensures { result ≡ address_of word.now }
{
    let (ip, bits) = cut(word, b'/')?;
    Some(Address {
        ip: read_ip(ip)?,
        prefix: read_number(bits, 255)?,
    })
}

/// The address with its prefix that a word spells, as `192.168.1.5/24`. The prefix is at most 255.
pub fn read_address(word: &[u8]) -> Option<Address>
    ensures found { IfSome result (λ address. SpellsAddress word.now address) }
    ensures only { (address : AddressValue) → SpellsAddress word.now address → result ≡ Some address }
    ensures none { IsNone result ↔ ((address : AddressValue) → ¬ SpellsAddress word.now address) }
    // By a function that computes.
    ensures exact { result ≡ address_of word.now }
{
    address_in(word)
}

#[tactic(auto, unfolding(crate::specs::WordReading::endpoint_of))]
fn endpoint_in(word: &[u8]) -> Option<Endpoint>
    ensures { result ≡ endpoint_of word.now }
{
    let (ip, port) = cut(word, b':')?;
    Some(Endpoint {
        ip: read_ip(ip)?,
        port: read_number(port, 65535)? as u16,
    })
}

/// The address with a port that a word spells, as `10.0.0.2:40000`.
pub fn read_endpoint(word: &[u8]) -> Option<Endpoint>
    ensures found { IfSome result (λ endpoint. SpellsEndpoint word.now endpoint) }
    ensures only { (endpoint : EndpointValue) → SpellsEndpoint word.now endpoint → result ≡ Some endpoint }
    ensures none { IsNone result ↔ ((endpoint : EndpointValue) → ¬ SpellsEndpoint word.now endpoint) }
    // By a function that computes.
    ensures exact { result ≡ endpoint_of word.now }
{
    endpoint_in(word)
}
