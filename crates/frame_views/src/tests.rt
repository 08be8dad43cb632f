use crate::*;

#[rattlefmt::skip]
const ARP_REQUEST: [u8; 42] = [
    0xff, 0xff, 0xff, 0xff, 0xff, 0xff, // destination: broadcast
    0x02, 0x00, 0x00, 0x00, 0x00, 0x99, // source
    0x08, 0x06,                         // EtherType: ARP
    0x00, 0x01,                         // hardware: Ethernet
    0x08, 0x00,                         // protocol: IPv4
    0x06, 0x04,                         // lengths of the addresses
    0x00, 0x01,                         // operation: request
    0x02, 0x00, 0x00, 0x00, 0x00, 0x99, // sender's MAC
    0xc0, 0xa8, 0x01, 0x09,             // sender: 192.168.1.9
    0x00, 0x00, 0x00, 0x00, 0x00, 0x00, // target's MAC
    0xc0, 0xa8, 0x01, 0x05,             // target: 192.168.1.5
];

#[rattlefmt::skip]
const TCP_SEGMENT: [u8; 54] = [
    0x02, 0x00, 0x00, 0x00, 0x00, 0x01, // destination
    0x02, 0x00, 0x00, 0x00, 0x00, 0x99, // source
    0x08, 0x00,                         // EtherType: IPv4
    0x45, 0x00,                         // version 4, a header of 5 words; service
    0x00, 0x28,                         // total length: 40
    0x00, 0x07,                         // identification
    0x40, 0x00,                         // don't fragment, offset 0
    0x40, 0x06,                         // time to live; protocol: TCP
    0x00, 0x00,                         // checksum
    0x0a, 0x00, 0x00, 0x09,             // source: 10.0.0.9
    0x0a, 0x00, 0x00, 0x02,             // destination: 10.0.0.2
    0x01, 0xbb,                         // source port: 443
    0x9c, 0x40,                         // destination port: 40000
    0x00, 0x00, 0x07, 0xd0,             // sequence number: 2000
    0x00, 0x00, 0x03, 0xe9,             // acknowledgement number: 1001
    0x50, 0x10,                         // a header of 5 words; ACK
    0x00, 0x00,                         // window
    0x00, 0x00, 0x00, 0x00,             // checksum; urgent pointer
];

#[rattlefmt::skip]
const ADVERTISEMENT: [u8; 62] = [
    0x33, 0x33, 0x00, 0x00, 0x00, 0x01, // destination
    0x02, 0x00, 0x00, 0x00, 0x00, 0x99, // source
    0x86, 0xdd,                         // EtherType: IPv6
    0x60, 0x00, 0x00, 0x00,             // version 6, traffic class, flow label
    0x00, 0x58,                         // payload length
    0x3a, 0xff,                         // next header: ICMPv6; hop limit
    0xfe, 0x80, 0x00, 0x00, 0x00, 0x00, 0x00, 0x00, // source: fe80::99
    0x00, 0x00, 0x00, 0x00, 0x00, 0x00, 0x00, 0x99,
    0xff, 0x02, 0x00, 0x00, 0x00, 0x00, 0x00, 0x00, // destination: ff02::1
    0x00, 0x00, 0x00, 0x00, 0x00, 0x00, 0x00, 0x01,
    0x86, 0x00,                         // type: router advertisement; code
    0x00, 0x00,                         // checksum
    0x40, 0x00,                         // hop limit, flags
    0x07, 0x08,                         // router lifetime: 1800 seconds
];

#[test]
fn fields_of_arp(rt: HostRuntime) {
    let ether = Ether::new(&ARP_REQUEST);
    let packet = Arp::new(&ARP_REQUEST);
    let numbers = [
        ether.ethertype(),
        packet.operation(),
        packet.sender(),
        packet.target(),
    ];
    assert_eq!(rt;
        numbers,
        [Some(0x806), Some(1), Some(0xc0a8_0109), Some(0xc0a8_0105)]
    );
    assert_eq!(rt; Arp::new(&ARP_REQUEST[..41]).target(), None);

    let parts = [ether.destination(), ether.source(), packet.opening()];
    assert_eq!(rt;
        parts,
        [
            ARP_REQUEST.get(0..6),
            ARP_REQUEST.get(6..12),
            ARP_REQUEST.get(14..20)
        ]
    );
}

#[test]
fn fields_of_ipv4(rt: HostRuntime) {
    let packet = Ip4::new(&TCP_SEGMENT);
    assert_eq!(rt; packet.header_len(), 20);
    let numbers = [
        packet.total_length(),
        packet.fragment(),
        packet.protocol(),
        packet.destination(),
    ];
    assert_eq!(rt;
        numbers,
        [Some(40), Some(0x4000), Some(6), Some(0x0a00_0002)]
    );
    assert_eq!(rt; packet.ends(), TCP_SEGMENT.get(26..34));
}

#[test]
fn fields_behind_ipv4(rt: HostRuntime) {
    let segment = Tcp::new(&TCP_SEGMENT, 20);
    assert_eq!(rt; segment.size_byte(), Some(0x50));
    assert_eq!(rt; segment.opening(), TCP_SEGMENT.get(34..46));
    let datagram = Udp::new(&TCP_SEGMENT, 20);
    let numbers = [
        datagram.source_port(),
        datagram.destination_port(),
        datagram.length(),
        datagram.first_byte(),
    ];
    assert_eq!(rt; numbers, [Some(443), Some(40_000), Some(0), Some(0)]);
    assert_eq!(rt; datagram.client_mac(), None);
}

#[test]
fn fields_of_ipv6(rt: HostRuntime) {
    let packet = Ip6::new(&ADVERTISEMENT);
    let message = Icmp6::new(&ADVERTISEMENT);
    let numbers = [
        packet.next_header(),
        packet.first_byte(),
        message.kind(),
        message.router_lifetime(),
    ];
    assert_eq!(rt; numbers, [Some(58), Some(0xff), Some(134), Some(1800)]);
    assert_eq!(rt;
        [packet.source(), packet.destination()],
        [ADVERTISEMENT.get(22..38), ADVERTISEMENT.get(38..54)]
    );
}
