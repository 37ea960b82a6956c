//! What no clause says: that calls succeed with ample memory, and which bytes move where.

ghost use Rattle.std.specs.Prelude.{◌<◌, IfOk};
ghost use Rattle.cp_io.specs.Port.{NothingBound};
ghost use Rattle.cp_io.specs.Memory.{memory_port};

use crate::{
    Bytes, Desk, FailAt, FailList, Failed, Input, Inputs, Limits, MemDesk, OutputBuffer, ReadError,
    Role, StdDesk, Way, read_up_to, write_whole,
};
use std::alloc::{AllocError, Global};
use std::test::Fail;

const TEXT: &[u8] = b"p cnf 2 1\n1 -2 0\n";

// A desk whose formula is this text.
fn desk_of(alloc: Global, piece: usize, failing: &[FailAt]) -> Result<MemDesk, AllocError>
    requires { 0 < piece }
    ensures { IfOk result (λ desk. NothingBound (memory_port desk)) }
{
    let mut inputs = Inputs::new(alloc);
    let bytes = Bytes::from_slice(alloc, TEXT)?;
    inputs.push(Input {
        role: Role::Cnf,
        bytes,
    })?;
    let failing = FailList::from_slice(alloc, failing)?;
    MemDesk::new(alloc, inputs, piece, failing)
}

// What four reads of a role answer.
fn reads_of<D: Desk>(desk: &mut D, role: Role) -> Result<[Result<usize, Failed>; 4], Failed>
    requires { NothingBound (D.port desk.old) }
{
    desk.bind(role, Way::In, "in")?;
    let mut into = [0; 16];
    let first = desk.read(role, &mut into);
    let second = desk.read(role, &mut into);
    let third = desk.read(role, &mut into);
    let fourth = desk.read(role, &mut into);
    Ok([first, second, third, fourth])
}

// Whether a bind and two writes of a role fail. A bind that fails is tried again.
fn fails_of<D: Desk>(desk: &mut D, role: Role) -> Result<[bool; 3], Failed>
    requires { NothingBound (D.port desk.old) }
{
    let bound = desk.bind(role, Way::Out, "out");
    if bound.is_err() {
        desk.bind(role, Way::Out, "out")?;
        return Ok([true, false, false]);
    }
    let first = desk.write(role, b"bytes").is_err();
    let second = desk.write(role, b"bytes").is_err();
    Ok([false, first, second])
}

// The first ten bytes of a role, and the others.
fn halves_of<D: Desk>(
    alloc: Global,
    desk: &mut D,
    role: Role,
) -> Result<(Vec<u8>, Vec<u8>), ReadError>
    requires { NothingBound (D.port desk.old) }
{
    if desk.bind(role, Way::In, "std").is_err() {
        return Err(ReadError::Failed);
    }
    let front = read_up_to(alloc, desk, role, 10)?;
    let rest = read_up_to(alloc, desk, role, 100)?;
    Ok((front, rest))
}

// Writes a piece of the text, and then all of it.
fn write_of<D: Desk>(desk: &mut D, role: Role) -> Result<usize, Failed>
    requires { NothingBound (D.port desk.old) }
{
    desk.bind(role, Way::Out, "none")?;
    let count = desk.write(role, TEXT)?;
    write_whole(desk, role, TEXT)?;
    Ok(count)
}

// Prints a text of short and long pieces.
fn print_of<D: Desk>(desk: &mut D, role: Role) -> Result<(), Failed>
    requires { NothingBound (D.port desk.old) }
{
    desk.bind(role, Way::Out, "out")?;
    let mut buffer = OutputBuffer::new();
    buffer.put(desk, role, &[b'1'; 16_383]);
    buffer.put_byte(desk, role, b' ');
    buffer.put_byte(desk, role, b' ');
    buffer.put(desk, role, &[b'2'; 20_000]);
    buffer.put(desk, role, b"3");
    buffer.finish(desk, role)
}

#[test]
fn lists_keep_their_items(rt: HostRuntime) -> Result<(), Fail> {
    let mut list = Bytes::from_slice(rt.alloc(), b"ab")?;
    list.push(b'c')?;
    list.reserve(1)?;
    list.push_reserved(b'd');
    assert_eq!(rt; list.len(), 4);
    assert_eq!(rt; list.get(3).copied(), Some(b'd'));
    assert_eq!(rt; list.get(4).copied(), None);
    assert_eq!(rt; list.as_slice(), b"abcd".as_slice());
    assert!(rt; list.iter().all(|byte| *byte >= b'a'));
    assert!(rt; Bytes::from_vec(list.into_vec()).len() == 4);
    assert!(rt; Bytes::new(rt.alloc()).is_empty());
    Ok(())
}

#[test]
fn reads_in_pieces(rt: HostRuntime) -> Result<(), Fail> {
    for (piece, counts) in [(1, [1, 1, 1, 1]), (8, [8, 8, 1, 0]), (100, [16, 1, 0, 0])] {
        let mut desk = desk_of(rt.alloc(), piece, &[])?;
        let reads = reads_of(&mut desk, Role::Cnf)?;
        assert_eq!(rt; reads, counts.map(Ok), "in pieces of {piece}");
    }
    Ok(())
}

#[test]
fn fails_at_the_nth_read(rt: HostRuntime) -> Result<(), Fail> {
    let role = Role::Cnf;
    let mut desk = desk_of(rt.alloc(), 8, &[FailAt { role, nth: 3 }])?;
    let reads = reads_of(&mut desk, role)?;
    assert_eq!(rt; reads, [Ok(8), Err(Failed), Ok(8), Ok(1)]);
    Ok(())
}

#[test]
fn reads_and_writes_whole(rt: HostRuntime) -> Result<(), Fail> {
    for piece in [1, 8] {
        let mut desk = desk_of(rt.alloc(), piece, &[])?;
        let (front, rest) = halves_of(rt.alloc(), &mut desk, Role::Cnf)?;
        assert_eq!(rt; front.as_slice(), b"p cnf 2 1\n".as_slice());
        assert_eq!(rt; rest.as_slice(), b"1 -2 0\n".as_slice());

        let mut desk = desk_of(rt.alloc(), piece, &[])?;
        assert_eq!(rt; write_of(&mut desk, Role::Reduced), Ok(piece));
        let written = desk.written(Role::Reduced);
        assert_eq!(rt; written.len(), piece + TEXT.len());
        assert!(rt; written.ends_with(TEXT));
    }
    Ok(())
}

#[test]
fn fails_at_the_nth_call(rt: HostRuntime) -> Result<(), Fail> {
    for (role, nth, want) in [
        (Role::Reduced, 1, [true, false, false]),
        (Role::Reduced, 2, [false, true, false]),
        (Role::Reduced, 3, [false, false, true]),
        (Role::Reduced, 4, [false, false, false]),
        (Role::Cnf, 1, [false, false, false]),
    ] {
        let mut desk = desk_of(rt.alloc(), 8, &[FailAt { role, nth }])?;
        let fails = fails_of(&mut desk, Role::Reduced)?;
        assert_eq!(rt; fails, want, "the call {nth}");
    }
    Ok(())
}

#[test]
fn takes_names_of_4096_bytes(rt: HostRuntime) -> Result<(), Fail> {
    for (len, fails) in [(0, false), (4096, false), (4097, true)] {
        let name = "n".repeat(rt.alloc(), len)?;
        let mut desk = desk_of(rt.alloc(), 1, &[])?;
        let bound = bind_of(&mut desk, name.as_str());
        assert_eq!(rt; bound.is_err(), fails, "a name of {len} bytes");
    }
    Ok(())
}

fn bind_of<D: Desk>(desk: &mut D, name: &str) -> Result<(), Failed>
    requires { NothingBound (D.port desk.old) }
{
    desk.bind(Role::Cnf, Way::In, name)
}

#[test]
fn writes_in_reserved_room(rt: HostRuntime) -> Result<(), Fail> {
    let mut desk = MemDesk::honest(rt.alloc(), Inputs::new(rt.alloc()))?;
    desk.reserve(Role::Reduced, 2 * TEXT.len())?;
    assert_eq!(rt; write_of(&mut desk, Role::Reduced), Ok(TEXT.len()));
    assert_eq!(rt; desk.written(Role::Reduced).len(), 2 * TEXT.len());
    Ok(())
}

#[test]
fn prints_through_a_buffer(rt: HostRuntime) -> Result<(), Fail> {
    for (nth, fails, written) in [(9, false, 36_386), (2, true, 0), (3, true, 16_384)] {
        let role = Role::Reduced;
        let mut desk = desk_of(rt.alloc(), 1 << 20, &[FailAt { role, nth }])?;
        assert_eq!(rt; print_of(&mut desk, role).is_err(), fails);
        assert_eq!(rt; desk.written(role).len(), written);
    }
    Ok(())
}

#[test]
fn binds_none_and_no_missing_file(rt: HostRuntime) -> Result<(), Fail> {
    for (name, fails) in [("none", false), ("", true), ("stdin", true)] {
        let mut desk = StdDesk::new(rt);
        assert_eq!(rt; bind_of(&mut desk, name).is_err(), fails, "{name}");
    }
    let mut desk = StdDesk::new(rt);
    assert_eq!(rt; write_of(&mut desk, Role::Reduced), Ok(TEXT.len()));
    Ok(())
}

#[test]
fn has_standard_limits(rt: HostRuntime) {
    let limits = Limits::standard();
    assert_eq!(rt; limits.variables, 2_000_000);
    assert_eq!(rt; limits.clauses, 8_000_000);
    assert_eq!(rt; limits.literals, 30_000_000);
    assert_eq!(rt; limits.bytes, 1 << 30);
}
