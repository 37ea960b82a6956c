//! Draws from small claims by seats in turns, and from larger ones by two threads beside each other.
ghost use Rattle.std.specs.Prelude.{◌≡◌};
ghost use Rattle.cp_claim.specs.Views.{DrawsOnly};

use crate::{ClaimSeat, Claims};
use std::test::Fail;
use std::thread;

const LIMIT: u64 = 100_000;

#[test]
fn one_seat_draws(rt: HostRuntime) -> Result<(), Fail> {
    let (claims, mut seat) = Claims::new(rt.alloc(), 2)?;
    assert_eq!(rt; claims.next(&mut seat), Some(0));
    assert_eq!(rt; claims.next(&mut seat), Some(1));
    assert_eq!(rt; claims.next(&mut seat), None);
    assert_eq!(rt; claims.next(&mut seat), None);
    assert_eq!(rt; claims.close(seat), 3);
    Ok(())
}

#[test]
fn seats_draw_in_turns(rt: HostRuntime) -> Result<(), Fail> {
    let (claims, mut zero) = Claims::new(rt.alloc(), 4)?;
    let mut one = claims.split(&mut zero);
    let mut two = claims.split(&mut zero);
    assert_eq!(rt;
        (zero.number(), one.number(), two.number(), zero.made()),
        (0, 1, 2, 3)
    );
    assert_eq!(rt; claims.next(&mut two), Some(0));
    assert_eq!(rt; claims.next(&mut one), Some(1));
    assert_eq!(rt; claims.next(&mut zero), Some(2));
    claims.join(&mut one, two);
    assert_eq!(rt; claims.next(&mut one), Some(3));
    assert_eq!(rt; claims.next(&mut one), None);
    assert_eq!(rt; claims.next(&mut one), None);
    claims.join(&mut zero, one);
    assert_eq!(rt; claims.next(&mut zero), None);
    assert_eq!(rt; claims.close(zero), 6);
    Ok(())
}

#[test]
fn a_seat_alone_may_close_early(rt: HostRuntime) -> Result<(), Fail> {
    let (claims, seat) = Claims::new(rt.alloc(), 0)?;
    assert_eq!(rt; claims.close(seat), 0);
    let (claims, mut seat) = Claims::new(rt.alloc(), 2_000_000)?;
    assert_eq!(rt; claims.next(&mut seat), Some(0));
    assert_eq!(rt; claims.close(seat), 1);
    Ok(())
}

// More draws than there are numbers: the seat, how many it got and their sum.
fn draw_all(claims: &Claims, mut seat: ClaimSeat) -> (ClaimSeat, u64, u64)
    requires { seat.counter ≡ claims.now }
    ensures counter { result.0.counter ≡ claims.now }
    ensures same { DrawsOnly seat.view result.0.view }
{
    let mut count = 0u64;
    let mut sum = 0u64;
    for _ in 0..LIMIT + 1 {
        if let Some(number) = claims.next(&mut seat) {
            count = count.wrapping_add(1);
            sum = sum.wrapping_add(number);
        }
    }
    (seat, count, sum)
}

#[test]
fn two_threads_draw(rt: HostRuntime) -> Result<(), Fail> {
    let (claims, mut zero) = Claims::new(rt.alloc(), LIMIT)?;
    let one = claims.split(&mut zero);
    let ((mut zero, count, sum), (one, more, more_sum)) = thread::join(
        &rt,
        || -> (ClaimSeat, u64, u64)
            requires { zero.counter ≡ claims }
            ensures { (result.0.counter ≡ claims) × DrawsOnly zero.view result.0.view }
        { draw_all(&claims, zero) },
        || -> (ClaimSeat, u64, u64)
            requires { one.counter ≡ claims }
            ensures { (result.0.counter ≡ claims) × DrawsOnly one.view result.0.view }
        { draw_all(&claims, one) },
    );
    assert_eq!(rt;
        (count.wrapping_add(more), sum.wrapping_add(more_sum)),
        (LIMIT, LIMIT * (LIMIT - 1) / 2)
    );
    claims.join(&mut zero, one);
    assert_eq!(rt; claims.close(zero), LIMIT + 2);
    Ok(())
}
