// Formulas whose answer is known: both engines come to it, and a model makes every clause hold.
use clause::literal::Literal;
use counting::counting::Counting;
use engine::engine::Engine;
use engine::search::run;
use engine::types::Answer;
use propagating::propagating::Propagating;
use refusal::refusal::Refusal;
use std::process::Abort;
use std::test::Fail;

/// A clause as in DIMACS: a number for a variable, its negative for the negation.
type Clause<'a> = &'a [i8];

fn literal(number: i8) -> Literal {
    Literal {
        variable: number.unsigned_abs() as usize,
        negated: number < 0,
    }
}

/// Whether the engine's values make the clause hold.
fn holds<E: Engine>(engine: &E, clause: Clause<'_>) -> Result<bool, Refusal> {
    for number in clause {
        let literal = literal(*number);
        if engine.value(literal.variable)? != literal.negated {
            return Ok(true);
        }
    }
    Ok(false)
}

/// What a search over the clauses comes to within `budget` steps; a model's values are tried at each clause.
fn outcome<E: Engine, R: Abort + AllocGlobal>(
    rt: &R,
    engine: &mut E,
    variables: usize,
    clauses: &[Clause<'_>],
    budget: u64,
) -> Result<Answer, Fail> {
    engine.clear();
    engine.grow(variables)?;
    for clause in clauses {
        let literals: Vec<Literal> = clause
            .iter()
            .map(|number| literal(*number))
            .collect(rt.alloc())?;
        engine.add(&literals)?;
    }
    let (answer, _) = run(engine, budget)?;
    if answer == Answer::Model {
        for clause in clauses {
            assert!(rt; holds(engine, clause)?, "the model's values");
        }
    }
    Ok(answer)
}

/// Three pigeons do not fit into two holes: variable 2p + h - 2 says that pigeon p sits in hole h.
const PIGEONS: [Clause<'static>; 9] = [
    &[1, 2],
    &[3, 4],
    &[5, 6],
    &[-1, -3],
    &[-1, -5],
    &[-3, -5],
    &[-2, -4],
    &[-2, -6],
    &[-4, -6],
];

/// Exactly one row makes these hold: 1 true, 2 false, 3 true.
const ONE_ROW: [Clause<'static>; 5] = [&[1], &[-1, -2], &[2, 3], &[1, 2, -3], &[-3, -2, 1]];

/// Every sign of three variables: no row makes all hold.
const ALL_SIGNS: [Clause<'static>; 8] = [
    &[1, 2, 3],
    &[1, 2, -3],
    &[1, -2, 3],
    &[1, -2, -3],
    &[-1, 2, 3],
    &[-1, 2, -3],
    &[-1, -2, 3],
    &[-1, -2, -3],
];

/// The same answers from any engine, one formula after another.
fn known_answers<E: Engine, R: Abort + AllocGlobal>(rt: &R, engine: &mut E) -> Result<(), Fail> {
    assert_eq!(rt; outcome(rt, engine, 0, &[], 1)?, Answer::Model, "no clause");
    assert_eq!(rt;
        outcome(rt, engine, 3, &[], 15)?,
        Answer::Model,
        "no clause over three variables"
    );
    assert_eq!(rt;
        outcome(rt, engine, 2, &[&[]], 7)?,
        Answer::Unsatisfiable,
        "the empty clause"
    );
    assert_eq!(rt;
        outcome(rt, engine, 1, &[&[1, -1]], 3)?,
        Answer::Model,
        "a clause that always holds"
    );
    assert_eq!(rt;
        outcome(rt, engine, 1, &[&[1, 1], &[-1]], 3)?,
        Answer::Unsatisfiable,
        "a literal twice"
    );
    assert_eq!(rt;
        outcome(rt, engine, 6, &PIGEONS, 127)?,
        Answer::Unsatisfiable,
        "three pigeons"
    );
    assert_eq!(rt;
        outcome(rt, engine, 3, &ONE_ROW, 15)?,
        Answer::Model,
        "one row"
    );
    assert_eq!(rt;
        outcome(rt, engine, 3, &ALL_SIGNS, 15)?,
        Answer::Unsatisfiable,
        "all signs"
    );
    assert_eq!(rt;
        outcome(rt, engine, 3, &ALL_SIGNS, 0)?,
        Answer::More,
        "no budget"
    );
    Ok(())
}

#[test]
fn counting(rt: HostRuntime) -> Result<(), Fail> {
    known_answers(&rt, &mut Counting::with_places(rt.alloc(), 6, 40)?)
}

#[test]
fn propagating(rt: HostRuntime) -> Result<(), Fail> {
    known_answers(&rt, &mut Propagating::with_places(rt.alloc(), 6, 40)?)
}
