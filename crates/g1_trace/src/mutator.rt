ghost use Rattle.std.specs.Prelude.{◌≡◌, ℕ, ◌≤◌, ◌<◌, ◌⊎◌, slice_set, IfOk, IfErr, OnErr};
ghost use Rattle.g1_words.specs.Geometry.{most_roots};
ghost use Rattle.g1_image.specs.Cards.{IsTracked};
ghost use Rattle.g1_image.specs.Image.{Image as ImageOf};
ghost use Rattle.g1_choose.specs.Cost.{IsCost};
ghost use Rattle.g1_choose.specs.declared.parameters.Cost.{Cost as CostOf};
ghost use Rattle.g1_work.specs.Team.{IsTeam};
ghost use Rattle.g1_pause.specs.declared.settings.Choice.TheVariants.{Budget};
ghost use Rattle.g1_pause.specs.Steps.{AreStepsOf};
ghost use Rattle.g1_trace.specs.declared.command.Reply.{Reply as ReplyOf};
ghost use Rattle.g1_trace.specs.Mutator.{heap_view, value_address, with_words, IsStep, IsEffect};
ghost use Rattle.g1_trace.specs.Run.{empty_image};
ghost use Rattle.g1_trace.specs.Store.{Store, IsPlainStep};
ghost use Rattle.g1_trace.specs.Views.{EffectFits, ForPause, Shows};

use crate::allocating::{place_for, place_object};
use crate::answering::answer;
use crate::collector::{Collector, pause};
use crate::command::{Command, Reply};
use crate::effect::{Answer, Effect};
use crate::laws;
use crate::writing::{set_root, set_slot, set_value};
use g1_choose::Cost;
use g1_image::Image;
use g1_pause::{Settings, Steps};
use g1_rem::{Tracked, image, no_cards};
use g1_words::{Fault, Geometry, Heap, Kind, MOST_ROOTS, Region, Words};
use g1_work::{Gate, Open, Team};
use indexmap::IndexSet;
use std::alloc::Global;
use std::marker::Model;
use std::thread::Threads;

/// A heap that commands work on, with roots by number.
#[derive(Drop)]
pub struct Mutator {
    tracked: Tracked,
}

impl Model for Mutator {
    ghost use Rattle.g1_image.specs.Image.{Image as ImageOf};

    ghost Value = { ImageOf };

    ghost view = { λ m. m.tracked };
}

/// A heap of free regions, with this many roots, all null.
fn free_heap(alloc: Global, geometry: Geometry, roots: u64) -> Result<Heap, Fault>
    requires { roots ≤ most_roots }
    ensures ok { IfOk result (λ h. h ≡ (empty_image geometry roots).heap) }
    ensures memory { IfErr result (λ e. e ≡ Fault.Memory) }
{
    let regions = geometry.regions();
    let free = Region {
        kind: Kind::Free,
        top: 0,
        pinned: false,
    };
    Ok(Heap {
        geometry,
        words: Words::new(Vec::new(alloc), geometry.words() as usize)?,
        regions: vec![in alloc; free; regions as usize]?,
        roots: vec![in alloc; 0u64; roots as usize]?,
        current: None,
    })
}

/// Writes a data word of an object. Its header says where its data words begin.
fn set_data(tracked: &mut Tracked, object: u64, word: u64, value: u64)
    requires before { IsTracked tracked.old }
    requires fits { EffectFits (heap_view tracked.old.heap) (Effect.SetValue object word value) }
    ensures { tracked.new ≡ with_words tracked.old (slice_set tracked.old.heap.words (value_address tracked.old.heap object word) value) tracked.old.log }
{
    let refs = image(tracked).heap().words().header(object).refs;
    set_value(tracked, object + 1 + refs + word, value);
}

/// Does what a command does that is no pause, if the table of commands answers so. The heap is written in place.
///
/// # Errors
///
/// `Fault::Memory`, with the image as it was.
fn write_effect(tracked: &mut Tracked, told: Answer) -> Result<Reply, Fault>
    requires before { IsTracked tracked.old }
    requires fits { EffectFits (heap_view tracked.old.heap) told.effect }
    requires no_pause { ForPause told.effect ⊥ }
    ensures done { IfOk result (λ r. (k : CostOf) → IsEffect k tracked.old told.effect told.reply r tracked.new) }
    ensures memory { IfErr result (λ e. e ≡ Fault.Memory) }
    ensures same { OnErr result (tracked.new ≡ tracked.old) }
{
    match told.effect {
        Effect::Nothing => Ok(told.reply),
        Effect::SetRoot { root, value } => {
            set_root(tracked, root, value);
            Ok(told.reply)
        }
        Effect::SetSlot {
            object,
            slot,
            value,
        } => match set_slot(tracked, object + 1 + slot, value) {
            Ok(()) => Ok(told.reply),
            Err(fault) => Err(fault),
        },
        Effect::SetValue {
            object,
            word,
            value,
        } => {
            set_data(tracked, object, word, value);
            Ok(told.reply)
        }
        Effect::MakeNew { root, refs, words } => {
            let place = place_for(image(tracked).heap(), refs, words);
            match place {
                None => Ok(Reply::Full),
                Some(r) => {
                    place_object(tracked, r, root, refs, words);
                    Ok(told.reply)
                }
            }
        }
        Effect::MakePause { .. } => unreachable!(),
    }
}

/// Does what a command does, if the table of commands answers so.
///
/// # Errors
///
/// `Fault::Memory`, with the image as it was.
fn carry_out<R: Threads + Sync, G: Gate + Sync>(
    collector: &Collector<'_, R, G>,
    mut tracked: Tracked,
    told: Answer,
) -> (Tracked, Result<Reply, Fault>)
    requires before { IsTracked tracked }
    requires fits { EffectFits (heap_view tracked.heap) told.effect }
    requires paused { ForPause told.effect (told.reply ≡ Reply.Ok) }
    ensures done { IfOk result.1 (λ r. IsEffect collector.now.cost tracked told.effect told.reply r result.0) }
    ensures memory { IfErr result.1 (λ e. e ≡ Fault.Memory) }
    ensures same { IfErr result.1 (λ e. result.0 ≡ tracked) }
{
    match told.effect {
        Effect::MakePause { budget } => pause(collector, tracked, budget),
        _ => {
            let outcome = write_effect(&mut tracked, told);
            (tracked, outcome)
        }
    }
}

impl Mutator {
    /// A heap of free regions, with this many roots, all null.
    ///
    /// # Errors
    ///
    /// `Fault::Geometry` if there are more than 65,536 roots; `Fault::Memory`.
    pub fn new(alloc: Global, geometry: Geometry, roots: u64) -> Result<Mutator, Fault>
        ensures ok { IfOk result (λ m. (m ≡ empty_image geometry roots) × (roots ≤ most_roots)) }
        ensures err { IfErr result (λ e. (e ≡ Fault.Memory) ⊎ ((e ≡ Fault.Geometry) × (most_roots < roots))) }
    {
        if roots > u64::from(MOST_ROOTS) {
            return Err(Fault::Geometry);
        }
        let heap = free_heap(alloc, geometry, roots)?;
        let image = Image {
            heap,
            remembered: no_cards(alloc, geometry.regions())?,
            log: IndexSet::new(alloc),
        };
        Ok(Mutator {
            tracked: Tracked { image },
        })
    }

    /// The heap with its remembered sets and its log.
    pub fn image(&self) -> &Image
        ensures { result.now ≡ self.now }
    {
        image(&self.tracked)
    }

    /// The same, as what a pause is made of.
    pub(crate) fn tracked(&self) -> &Tracked
        ensures { result.now ≡ self.now }
    {
        &self.tracked
    }

    /// Does the pause whose steps were taken of this very heap.
    pub(crate) fn carry_out_pause<R: Threads + Sync>(
        self,
        rt: &R,
        settings: &Settings,
        steps: Steps,
    ) -> (Mutator, Reply)
        requires taken { AreStepsOf settings.now.cost settings.now.choice self steps }
        ensures done { (b : ℕ) → settings.now.choice ≡ Budget b → IsStep settings.now.cost self (Command.Pause b) result.1 result.0 }
    {
        let Mutator { tracked } = self;
        match g1_pause::carry_out(rt, tracked, settings, steps, &Open) {
            Ok(tracked) => (Mutator { tracked }, Reply::Ok),
            Err((tracked, _)) => (Mutator { tracked }, Reply::Room),
        }
    }

    /// Does one command. A few words are read and written; a new object besides looks for a free
    /// region if the current one is full, and a pause does what a pause does.
    ///
    /// # Errors
    ///
    /// `Fault::Memory`, and then the mutator is as before.
    pub fn step<R: Threads + Sync, G: Gate + Sync>(
        self,
        rt: &R,
        alloc: Global,
        command: &Command,
        cost: &Cost,
        workers: u64,
        chunk: u64,
        gate: &G,
    ) -> (Mutator, Result<Reply, Fault>)
        requires team { IsTeam workers chunk }
        requires cost { IsCost cost.now }
        ensures tracked { IsTracked self }
        ensures replied { IfOk result.1 (λ r. IsStep cost.now self command.now r result.0) }
        ensures only { IfOk result.1 (λ r. (told : ReplyOf) (j : ImageOf) → IsStep cost.now self command.now told j → (told ≡ r) × (j ≡ result.0)) }
        ensures shows { IfOk result.1 (λ r. (s : Store) → Shows s self.heap → (t : Store) × IsPlainStep s command.now r t × Shows t result.0.heap) }
        ensures memory { IfErr result.1 (λ e. e ≡ Fault.Memory) }
        ensures same { IfErr result.1 (λ e. result.0 ≡ self) }
    {
        laws::traces();
        laws::one_run();
        let team = Team::new(workers, chunk);
        let collector = Collector::new(rt, alloc, cost, team, gate);
        self.execute(command, &collector)
    }

    /// Does one command that is no pause, in place.
    ///
    /// # Errors
    ///
    /// `Fault::Memory`, and then the mutator is as before.
    pub(crate) fn write(&mut self, command: &Command) -> Result<Reply, Fault>
        requires no_pause { (b : ℕ) → command.now ≡ Command.Pause b → ⊥ }
        ensures done { IfOk result (λ r. (k : CostOf) → IsStep k self.old command.now r self.new) }
        ensures memory { IfErr result (λ e. e ≡ Fault.Memory) }
        ensures same { OnErr result (self.new ≡ self.old) }
    {
        let told = answer(image(&self.tracked).heap(), command);
        write_effect(&mut self.tracked, told)
    }

    /// Does one command; its pauses are the collector's.
    ///
    /// # Errors
    ///
    /// `Fault::Memory`, and then the mutator is as before.
    pub(crate) fn execute<R: Threads + Sync, G: Gate + Sync>(
        self,
        command: &Command,
        collector: &Collector<'_, R, G>,
    ) -> (Mutator, Result<Reply, Fault>)
        ensures tracked { IsTracked self }
        ensures replied { IfOk result.1 (λ r. IsStep collector.now.cost self command.now r result.0) }
        ensures memory { IfErr result.1 (λ e. e ≡ Fault.Memory) }
        ensures same { IfErr result.1 (λ e. result.0 ≡ self) }
    {
        let Mutator { tracked } = self;
        let told = answer(image(&tracked).heap(), command);
        let (tracked, outcome) = carry_out(collector, tracked, told);
        (Mutator { tracked }, outcome)
    }
}
