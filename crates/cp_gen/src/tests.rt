//! Small formulas that were worked out by hand.

use crate::generate;
use std::test::Fail;

#[test]
fn the_formula_of_a_seed(rt: HostRuntime) -> Result<(), Fail> {
    let formula = generate(rt.alloc(), 7, 3, 2)?;
    let first: &[i64] = &[-2, 3, -3];
    let second: &[i64] = &[2, -3];
    assert_eq!(rt; formula.vars(), 3);
    assert_eq!(rt; formula.next(), 3);
    for (number, wanted) in [(1, first), (2, second)] {
        let clause = formula.get(number).ok_or("no such clause")?;
        assert_eq!(rt; clause.lits().len(), wanted.len());
        for (lit, number) in clause.lits().iter().zip(wanted) {
            assert_eq!(rt; lit.to_i64(), *number);
        }
    }
    Ok(())
}
