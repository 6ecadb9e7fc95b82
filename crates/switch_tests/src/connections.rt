//! Which connections are known.
use crate::made::{CLI, CLI6, WEB, WEB6};
use cl_types::{Addr, Copies, Packet, Proto};
use flow_pipeline::{Conn, Conns, MAX_CONNECTIONS};
use std::process::Abort;

fn packet(src: Addr, sport: u16, dst: Addr, dport: u16) -> Packet {
    Packet {
        inport: 1,
        src,
        dst,
        proto: Proto::Tcp,
        sport,
        dport,
        tunnel: None,
    }
}

// The number tells packets apart.
fn to_web(number: u32) -> Packet {
    packet(Addr::V4(number), 40_000, WEB, 80)
}

fn tick(rt: &impl Abort, k: &mut Conns, count: u32) {
    assert!(rt; k.clock() < 1_000_000);
    k.tick(count);
}

#[test]
fn room_is_for_so_many_connections(rt: HostRuntime) {
    let mut k = Conns::new(rt.alloc()).expect(&rt, "room");
    for number in 0..16_385 {
        k.note(&to_web(number), true);
    }
    assert_eq!(rt; k.list().len(), MAX_CONNECTIONS);
    assert!(rt; k.known(&to_web(16_383)));
    assert!(rt; !k.known(&to_web(16_384)));
    tick(&rt, &mut k, 599);
    assert_eq!(rt; k.list().len(), MAX_CONNECTIONS);
    let mut copied = k.copy().expect(&rt, "room for a copy");
    tick(&rt, &mut k, 1);
    assert_eq!(rt; k.list().len(), 0);
    assert_eq!(rt; k.clock(), 600);
    assert_eq!(rt; copied.list().len(), MAX_CONNECTIONS);
    // the copy has its own room
    tick(&rt, &mut copied, 600);
    copied.note(&to_web(16_384), true);
    assert!(rt; copied.known(&to_web(16_384)));
    assert_eq!(rt; copied.clock(), 1199);
}

#[test]
fn a_connection_is_known_in_both_directions(rt: HostRuntime) {
    for (web, client) in [(WEB, CLI), (WEB6, CLI6)] {
        let mut k = Conns::new(rt.alloc()).expect(&rt, "room");
        let request = packet(client, 40_000, web, 80);
        // a dropped packet makes no connection
        k.note(&request, false);
        assert!(rt; !k.known(&request));
        k.note(&request, true);
        // each with whether it is known
        let cases = [
            (request, true),
            // the reply
            (packet(web, 80, client, 40_000), true),
            // the addresses alone turned round, and the ports alone
            (packet(web, 40_000, client, 80), false),
            (packet(client, 80, web, 40_000), false),
            (packet(client, 40_001, web, 80), false),
            (
                Packet {
                    proto: Proto::Udp,
                    ..request
                },
                false,
            ),
            // the port by which it comes is not part of it
            (
                Packet {
                    inport: 3,
                    ..request
                },
                true,
            ),
        ];
        for (p, known) in cases {
            assert_eq!(rt; k.known(&p), known);
        }
    }
}

#[test]
fn a_reply_keeps_its_connection_alive(rt: HostRuntime) {
    let mut k = Conns::new(rt.alloc()).expect(&rt, "room");
    k.note(&packet(CLI, 40_000, WEB, 80), true);
    k.note(&packet(CLI, 40_001, WEB, 80), true);
    tick(&rt, &mut k, 500);
    k.note(&packet(WEB, 80, CLI, 40_000), true);
    k.note(&packet(WEB, 80, CLI, 40_001), false);
    tick(&rt, &mut k, 100);
    let kept = Conn {
        src: CLI,
        dst: WEB,
        proto: Proto::Tcp,
        sport: 40_000,
        dport: 80,
        last: 500,
    };
    assert!(rt; k.list() == [kept].as_slice());
}
