ghost use Rattle.std.specs.Prelude.{◌≡◌, length, IfOk, IfErr};

use g1_layout::Plan;
use g1_words::Fault;
use std::alloc::Global;

/// What a pause did.
#[derive(Debug, Drop)]
pub struct Report {
    /// The collection set's regions, rising.
    pub set: Vec<u32>,
    /// The regions that the survivors went into, rising.
    pub to: Vec<u32>,
    /// How many objects survived.
    pub objects: u64,
    /// How many words these have.
    pub words: u64,
    /// The first regions of the humongous objects that were freed, rising.
    pub humongous: Vec<u32>,
}

/// The report of the pause that evacuates a set as the plan says and frees these humongous objects.
///
/// # Errors
///
/// `Fault::Memory` alone.
pub(crate) fn report_of(
    alloc: Global,
    set: Vec<u32>,
    plan: &Plan,
    humongous: &[u32],
) -> Result<Report, Fault>
    ensures set { IfOk result (λ x. x.set.items ≡ set.items) }
    ensures to { IfOk result (λ x. x.to.items ≡ plan.now.to_space) }
    ensures objects { IfOk result (λ x. x.objects ≡ length plan.now.survivors) }
    ensures words { IfOk result (λ x. x.words ≡ plan.now.words) }
    ensures humongous { IfOk result (λ x. x.humongous.items ≡ humongous.now) }
    ensures memory { IfErr result (λ e. e ≡ Fault.Memory) }
{
    Ok(Report {
        set,
        to: plan.to_space().to_vec(alloc)?,
        objects: plan.survivors().len() as u64,
        words: plan.words(),
        humongous: humongous.to_vec(alloc)?,
    })
}
