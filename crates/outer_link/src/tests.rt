use crate::end::End;
use crate::mem_net::MemNet;
use crate::net::Net;
use std::alloc::{AllocError, Global};
use std::test::Fail;

/// A call of the net.
#[derive(Clone, Copy)]
enum Call {
    Listen(u8),
    Shut(u8),
    Part(u8, u8),
    Join(u8, u8),
    Connect(u8, u8),
    Accept(u8),
    Put(u32, End, &'static str),
    Take(u32, End),
    Cut(u32, End),
}

/// Makes the call, and writes what it answered; for a take also its two bytes. A call that names what isn't
/// there is not made.
fn answer(alloc: Global, net: &mut MemNet, call: Call) -> Result<String, AllocError> {
    match call {
        Call::Listen(server) => listen(alloc, net, server),
        Call::Connect(app, server) => connect(alloc, net, app, server),
        Call::Accept(server) => accept(alloc, net, server),
        Call::Put(conn, end, text) => put(alloc, net, conn, end, text),
        Call::Take(conn, end) => take(alloc, net, conn, end),
        _ => {
            turn(net, call);
            Ok(String::new(alloc))
        }
    }
}

fn listen(alloc: Global, net: &mut MemNet, server: u8) -> Result<String, AllocError> {
    if server as usize >= net.servers() {
        return Err(AllocError);
    }
    let done = net.listen(server);
    format!(in alloc; "{done:?}")
}

fn connect(alloc: Global, net: &mut MemNet, app: u8, server: u8) -> Result<String, AllocError> {
    if app >= net.apps() || server as usize >= net.servers() {
        return Err(AllocError);
    }
    let number = net.connect(app, server);
    format!(in alloc; "{number:?}")
}

fn accept(alloc: Global, net: &mut MemNet, server: u8) -> Result<String, AllocError> {
    if server as usize >= net.servers() {
        return Err(AllocError);
    }
    let number = net.accept(server);
    format!(in alloc; "{number:?}")
}

fn put(
    alloc: Global,
    net: &mut MemNet,
    conn: u32,
    end: End,
    text: &str,
) -> Result<String, AllocError> {
    if conn as usize >= net.made() || text.is_empty() {
        return Err(AllocError);
    }
    let put = net.put(conn, end, text.as_bytes());
    format!(in alloc; "{put:?}")
}

fn take(alloc: Global, net: &mut MemNet, conn: u32, end: End) -> Result<String, AllocError> {
    if conn as usize >= net.made() {
        return Err(AllocError);
    }
    let mut buf = [0u8; 2];
    let took = net.take(conn, end, &mut buf);
    format!(in alloc; "{took:?} {buf:?}")
}

/// The calls that answer nothing.
fn turn(net: &mut MemNet, call: Call) {
    match call {
        Call::Shut(server) if (server as usize) < net.servers() => net.shut(server),
        Call::Part(app, server) if app < net.apps() && (server as usize) < net.servers() => {
            net.part(app, server);
        }
        Call::Join(app, server) if app < net.apps() && (server as usize) < net.servers() => {
            net.join(app, server);
        }
        Call::Cut(conn, end) if (conn as usize) < net.made() => net.cut(conn, end),
        _ => net.wait(),
    }
}

#[test]
fn bytes_go_to_the_other_end_in_order(rt: HostRuntime) -> Result<(), Fail> {
    let alloc = rt.alloc();
    let mut net = MemNet::new(alloc, 2, 2, Vec::new(alloc))?;
    let turns = [
        (Call::Listen(0), "Ok(())"),
        (Call::Connect(1, 0), "Ok(0)"),
        (Call::Put(0, End::App, "abc"), "Ok(Bytes(3))"),
        (Call::Accept(0), "Ok(Some(0))"),
        (Call::Take(0, End::App), "Ok(NotNow) [0, 0]"),
        (Call::Take(0, End::Server), "Ok(Bytes(2)) [97, 98]"),
        (Call::Put(0, End::Server, "z"), "Ok(Bytes(1))"),
        (Call::Put(0, End::App, "d"), "Ok(Bytes(1))"),
        (Call::Take(0, End::Server), "Ok(Bytes(2)) [99, 100]"),
        (Call::Take(0, End::Server), "Ok(NotNow) [0, 0]"),
        (Call::Take(0, End::App), "Ok(Bytes(1)) [122, 0]"),
        (Call::Put(0, End::App, "e"), "Ok(Bytes(1))"),
        (Call::Cut(0, End::Server), ""),
        (Call::Take(0, End::Server), "Ok(Ended) [0, 0]"),
        (Call::Put(0, End::Server, "f"), "Ok(Bytes(1))"),
        (Call::Take(0, End::App), "Ok(Ended) [0, 0]"),
    ];
    for (call, want) in turns {
        let got = answer(alloc, &mut net, call)?;
        assert_eq!(rt; got.as_str(), want);
    }
    Ok(())
}

#[test]
fn the_oldest_that_is_not_cut_is_accepted(rt: HostRuntime) -> Result<(), Fail> {
    let alloc = rt.alloc();
    let mut net = MemNet::new(alloc, 2, 2, Vec::new(alloc))?;
    let turns = [
        (Call::Connect(0, 0), "Err(Failed)"),
        (Call::Listen(0), "Ok(())"),
        (Call::Listen(1), "Ok(())"),
        (Call::Connect(0, 0), "Ok(0)"),
        (Call::Connect(1, 1), "Ok(1)"),
        (Call::Connect(1, 0), "Ok(2)"),
        (Call::Connect(0, 0), "Ok(3)"),
        (Call::Connect(0, 0), "Ok(4)"),
        (Call::Cut(3, End::App), ""),
        (Call::Accept(0), "Ok(Some(0))"),
        (Call::Part(1, 0), ""),
        (Call::Connect(1, 0), "Err(Failed)"),
        (Call::Take(2, End::App), "Ok(Ended) [0, 0]"),
        (Call::Accept(0), "Ok(Some(4))"),
        (Call::Accept(0), "Ok(None)"),
        (Call::Join(1, 0), ""),
        (Call::Connect(1, 0), "Ok(5)"),
        (Call::Take(5, End::App), "Ok(NotNow) [0, 0]"),
        (Call::Shut(0), ""),
        (Call::Accept(0), "Ok(None)"),
        (Call::Take(5, End::App), "Ok(Ended) [0, 0]"),
        (Call::Take(4, End::App), "Ok(Ended) [0, 0]"),
        (Call::Connect(1, 0), "Err(Failed)"),
        (Call::Listen(0), "Ok(())"),
        (Call::Connect(1, 0), "Ok(6)"),
        (Call::Accept(0), "Ok(Some(6))"),
        (Call::Accept(1), "Ok(Some(1))"),
    ];
    for (call, want) in turns {
        let got = answer(alloc, &mut net, call)?;
        assert_eq!(rt; got.as_str(), want);
    }
    assert_eq!(rt; net.failed(), 3);
    Ok(())
}

#[test]
fn a_listed_call_fails_and_does_nothing(rt: HostRuntime) -> Result<(), Fail> {
    let alloc = rt.alloc();
    let turns = [
        (Call::Listen(0), "Ok(())", "Err(Failed)"),
        (Call::Connect(0, 0), "Ok(0)", "Err(Failed)"),
        (Call::Accept(0), "Ok(Some(0))", "Err(Failed)"),
        (Call::Put(0, End::App, "a"), "Ok(Bytes(1))", "Err(Failed)"),
        (
            Call::Take(0, End::Server),
            "Ok(Bytes(1)) [97, 0]",
            "Err(Failed) [0, 0]",
        ),
    ];
    for listed in 0..5u64 {
        let mut net = MemNet::new(alloc, 1, 1, vec![in alloc; listed]?)?;
        for (number, (call, want, refused)) in turns.iter().enumerate() {
            if number as u64 == listed {
                let got = answer(alloc, &mut net, *call)?;
                assert_eq!(rt; got.as_str(), *refused, "call {number}");
            }
            let got = answer(alloc, &mut net, *call)?;
            assert_eq!(rt; got.as_str(), *want, "call {number}, {listed} listed");
        }
        assert_eq!(rt; net.failed(), u64::from(listed == 1));
    }
    Ok(())
}
