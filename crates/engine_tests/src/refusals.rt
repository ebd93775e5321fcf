// What both engines refuse, in the order of their looks.
use clause::literal::Literal;
use counting::counting::Counting;
use engine::engine::Engine;
use engine::types::Answer;
use propagating::propagating::Propagating;
use refusal::refusal::Refusal;
use std::process::Abort;
use std::test::Fail;

/// The answer, or the number of the refusal.
fn numbered<T>(answer: Result<T, Refusal>) -> Result<T, u32> {
    answer.map_err(|refusal| refusal.number())
}

/// An engine with places for two variables and for five words, in every state.
fn refused<E: Engine>(rt: &impl Abort, engine: &mut E) -> Result<(), Fail> {
    let a = Literal {
        variable: 1,
        negated: false,
    };
    let b = Literal {
        variable: 2,
        negated: false,
    };
    let no_such = Literal {
        variable: 0,
        negated: true,
    };
    let past_the_last = Literal {
        variable: 3,
        negated: true,
    };
    assert_eq!(rt;
        numbered(engine.grow(3)),
        Err(24),
        "three variables on two places"
    );
    assert_eq!(rt; numbered(engine.grow(2)), Ok(()));
    assert_eq!(rt;
        numbered(engine.add(&[a, past_the_last])),
        Err(15),
        "variable 3"
    );
    assert_eq!(rt; numbered(engine.add(&[no_such])), Err(15), "variable 0");
    assert_eq!(rt;
        numbered(engine.add(&[a, b, a, b, a])),
        Err(24),
        "six words on five places"
    );
    assert_eq!(rt; numbered(engine.add(&[a, b])), Ok(()));
    assert_eq!(rt; numbered(engine.value(1)), Err(27), "no model yet");
    assert_eq!(rt; engine.step()?, Answer::More, "a first step");
    assert_eq!(rt; numbered(engine.grow(9)), Err(26), "grown while searching");
    assert_eq!(rt;
        numbered(engine.add(&[no_such])),
        Err(26),
        "added while searching"
    );
    for _ in 0..6 {
        let _ = engine.step()?;
    }
    assert_eq!(rt; engine.step()?, Answer::Model, "the answer again");
    assert_eq!(rt; engine.count(), 8, "every step counts");
    assert_eq!(rt; numbered(engine.value(3)), Err(15));
    assert!(rt; engine.value(2).is_ok());
    assert_eq!(rt; numbered(engine.add(&[a])), Ok(()), "idle after an answer");
    assert_eq!(rt;
        numbered(engine.value(1)),
        Err(27),
        "the model is forgotten"
    );
    engine.clear();
    assert_eq!(rt;
        numbered(engine.add(&[a])),
        Err(15),
        "no variable after clear"
    );
    assert_eq!(rt; numbered(engine.add(&[])), Ok(()), "the empty clause");
    assert_eq!(rt; engine.step()?, Answer::Unsatisfiable);
    Ok(())
}

#[test]
fn counting(rt: HostRuntime) -> Result<(), Fail> {
    refused(&rt, &mut Counting::with_places(rt.alloc(), 2, 5)?)
}

#[test]
fn propagating(rt: HostRuntime) -> Result<(), Fail> {
    refused(&rt, &mut Propagating::with_places(rt.alloc(), 2, 5)?)
}
