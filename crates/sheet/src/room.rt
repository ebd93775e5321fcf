// Memory for a circuit.
ghost use Rattle.std.specs.Prelude.{◌≡◌, ◌≤◌, [], IfErr, vec_len, vec_capacity};
ghost use Rattle.refusal.specs.declared.refusal.Refusal.TheVariants.{NoMemory};

use circuit::gate::Gate;
use refusal::refusal::Refusal;
use std::alloc::{AllocError, Global};

/// Empty, with memory for `N` items.
#[derive(Drop)]
pub(crate) struct Space<T, const N: usize> {
    pub(crate) items: Vec<T>,
    ghost empty: { (items.items ≡ []) × (vec_len items ≡ 0) },
    ghost roomy: { N ≤ vec_capacity items },
}

impl<T, const N: usize> Space<T, N> {
    fn new(heap: Global) -> Result<Space<T, N>, AllocError> {
        let items = Vec::with_capacity(heap, N)?;
        Ok(Space { items })
    }
}

/// Memory for one circuit, enough for any lawful one. Reading takes it, so that only this can fail for want of memory.
#[derive(Drop)]
pub struct Room {
    pub(crate) gates: Space<Gate, 200>,
    pub(crate) outputs: Space<u8, 16>,
}

impl Room {
    /// Memory for one circuit; refused only for want of memory.
    pub fn new(heap: Global) -> Result<Room, Refusal>
        ensures { IfErr result (λ e. e ≡ NoMemory) }
    {
        let gates = Space::new(heap)?;
        let outputs = Space::new(heap)?;
        Ok(Room { gates, outputs })
    }
}

/// Memory for the two circuits of a pair.
#[derive(Drop)]
pub struct PairRoom {
    pub(crate) target: Room,
    pub(crate) specification: Room,
}

impl PairRoom {
    /// Memory for a pair; refused only for want of memory.
    pub fn new(heap: Global) -> Result<PairRoom, Refusal>
        ensures { IfErr result (λ e. e ≡ NoMemory) }
    {
        let target = Room::new(heap)?;
        let specification = Room::new(heap)?;
        Ok(PairRoom {
            target,
            specification,
        })
    }
}
