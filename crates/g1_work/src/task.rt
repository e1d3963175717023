use g1_words::Fault;

/// Work that is cut into chunks. A worker keeps its state from chunk to chunk.
///
/// An implementation states by `ready` when a chunk may be run from a state, by `runs` what a run
/// makes of the state and gives, and by `may_fail` which faults a chunk may give. A run on one
/// chunk keeps the state ready for the others.
pub trait Task {
    type State: Send + Drop;

    type Out: Send + Drop;

    ghost use Rattle.std.specs.Prelude.{◌≢◌, ℕ, IfOk, IfErr, OnOk};
    ghost use Rattle.g1_words.specs.declared.fault.Fault.{Fault};

    // The chunk may be run from this state.
    ghost ready: { Self → Self.State → ℕ → Type 0 };

    // The state before, the chunk, the state after and the out.
    ghost runs: { Self → Self.State → ℕ → Self.State → Self.Out → Type 0 };

    // The faults that the chunk may give.
    ghost may_fail: { Self → ℕ → Fault → Type 0 };

    /// Runs one chunk.
    ///
    /// # Errors
    /// One that the task states for the chunk.
    fn run(&self, state: &mut Self::State, chunk: u64) -> Result<Self::Out, Fault>
        requires { ready self.now state.old chunk }
        ensures ok { IfOk result (λ out. runs self.now state.old chunk state.new out) }
        ensures err { IfErr result (λ e. may_fail self.now chunk e) }
        ensures keeps { OnOk result ((other : ℕ) → other ≢ chunk → ready self.now state.old other → ready self.now state.new other) };
}
