// Running a search, for every engine.
ghost use Rattle.engine.specs.Search.{Ran};

use crate::engine::Engine;
use crate::types::Answer;
use refusal::refusal::Refusal;

/// The most steps that an engine ever makes.
pub const STEP_LIMIT: u64 = 1_000_000_000_000;

/// Steps the engine until it answers, at most `budget` times, and tells the answer with the number of steps made.
/// Refused where the engine's count and the budget together pass the limit of steps.
pub fn run<E: Engine>(engine: &mut E, budget: u64) -> Result<(Answer, u64), Refusal>
    ensures { Ran (E.Engine.view engine.old) budget result (E.Engine.view engine.new) }
{
    if engine.count().saturating_add(budget) > STEP_LIMIT {
        return Err(Refusal::StepsSpent);
    }
    for made in 0..budget {
        match engine.step()? {
            Answer::More => {}
            answer => return Ok((answer, made + 1)),
        }
    }
    Ok((Answer::More, budget))
}
