//! A plain checker of DRAT proofs, for tests: it keeps a list of clauses, and propagates by going through all of them again and
//! again.

use std::alloc::Global;
use std::test::Fail;

#[derive(Clone, Copy, PartialEq, Eq)]
struct Literal {
    var: u32,
    positive: bool,
}

impl Literal {
    fn negated(self) -> Literal {
        Literal {
            var: self.var,
            positive: !self.positive,
        }
    }
}

type Literals = Vec<Literal>;

// What propagation comes to next.
enum Step {
    // A clause is false.
    Conflict,
    // All literals of a clause but this one are false.
    Unit(Literal),
    Nothing,
}

/// Whether each lemma of the proof is RUP, or RAT on its first literal, where it stands, from the clauses of the formula on. A formula
/// whose proof isn't empty stands without comments, each clause on a line.
pub(crate) fn is_right(alloc: Global, formula: &[u8], proof: &[u8]) -> Result<bool, Fail> {
    if proof.is_empty() {
        return Ok(true);
    }
    let mut clauses = clauses_of(alloc, formula)?;
    for line in lines_of(proof) {
        if !take_step(alloc, &mut clauses, line)? {
            return Ok(false);
        }
    }
    Ok(true)
}

// The clauses of the lines behind the first.
fn clauses_of(alloc: Global, formula: &[u8]) -> Result<Vec<Literals>, Fail> {
    let mut clauses = Vec::new(alloc);
    for line in lines_of(formula).skip(1) {
        clauses.push(literals_of(alloc, line)?)?;
    }
    Ok(clauses)
}

// Takes the clause of a deletion out, or puts a lemma in. Whether the line is one or the other.
fn take_step(alloc: Global, clauses: &mut Vec<Literals>, line: &str) -> Result<bool, Fail> {
    if let Some(deleted) = line.strip_prefix("d ") {
        delete(clauses, &literals_of(alloc, deleted)?);
        return Ok(true);
    }
    let lemma = literals_of(alloc, line)?;
    let follows = is_rup(alloc, clauses, &lemma)? || is_rat(alloc, clauses, &lemma)?;
    clauses.push(lemma)?;
    Ok(follows)
}

fn lines_of(text: &[u8]) -> std::str::Lines<'_> {
    std::str::from_utf8(text).unwrap_or("").lines()
}

// The literals of a line, up to its 0.
fn literals_of(alloc: Global, line: &str) -> Result<Literals, Fail> {
    let mut literals = Vec::new(alloc);
    for word in line.split(' ') {
        let (positive, digits) = match word.strip_prefix("-") {
            Some(digits) => (false, digits),
            None => (true, word),
        };
        let var: u32 = digits.parse().ok().ok_or("no number")?;
        if var == 0 {
            return Ok(literals);
        }
        literals.push(Literal { var, positive })?;
    }
    Err(Fail::from("no end"))
}

fn has_all(clause: &[Literal], literals: &[Literal]) -> bool {
    literals.iter().all(|lit| clause.contains(lit))
}

// Takes one clause of the same literals out, if there is one.
fn delete(clauses: &mut Vec<Literals>, clause: &[Literal]) {
    let found = clauses
        .iter()
        .position(|other| has_all(other, clause) && has_all(clause, other));
    if let Some(at) = found {
        let _ = clauses.remove(at);
    }
}

// The first clause that these false literals leave false or with one literal.
fn next_step(clauses: &[Literals], falses: &[Literal]) -> Step {
    for clause in clauses {
        let mut left = clause.iter().filter(|lit| !falses.contains(lit));
        match (left.next(), left.next()) {
            (None, _) => return Step::Conflict,
            (Some(lit), None) if !falses.contains(&lit.negated()) => return Step::Unit(*lit),
            _ => {}
        }
    }
    Step::Nothing
}

fn is_rup(alloc: Global, clauses: &[Literals], clause: &[Literal]) -> Result<bool, Fail> {
    if clause.iter().any(|lit| clause.contains(&lit.negated())) {
        return Ok(true);
    }
    let mut falses = clause.to_vec(alloc)?;
    for _ in 0..=clauses.len() {
        match next_step(clauses, &falses) {
            Step::Conflict => return Ok(true),
            Step::Unit(lit) => falses.push(lit.negated())?,
            Step::Nothing => return Ok(false),
        }
    }
    Ok(false)
}

fn is_rat(alloc: Global, clauses: &[Literals], clause: &[Literal]) -> Result<bool, Fail> {
    let Some(pivot) = clause.first() else {
        return Ok(false);
    };
    for other in clauses {
        if !other.contains(&pivot.negated()) {
            continue;
        }
        let mut resolvent = clause.to_vec(alloc)?;
        for lit in other {
            if *lit != pivot.negated() {
                resolvent.push(*lit)?;
            }
        }
        if !is_rup(alloc, clauses, &resolvent)? {
            return Ok(false);
        }
    }
    Ok(true)
}

#[test]
fn wrong_proofs_are_refused(rt: HostRuntime) -> Result<(), Fail> {
    let formula = b"p cnf 2 3\n1 2 0\n-1 2 0\n-2 1 0\n";
    let table: [(&[u8], bool); 6] = [
        (b"2 0\nd 1 2 0\n", true),
        (b"1 0\n", true),
        (b"d 1 2 0\n2 0\n", false),
        (b"-1 0\n", false),
        (b"0\n", false),
        (b"2 0\nd -2 1 0\n-1 2 0\n", true),
    ];
    for (proof, want) in table {
        assert_eq!(rt; is_right(rt.alloc(), formula, proof)?, want);
    }
    Ok(())
}
