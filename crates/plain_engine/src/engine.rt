//! The engine: its state and its output.
ghost use Rattle.std.specs.Prelude.{◌≡◌, ◌≤◌, ◌<◌, ℕ, List, [], ◌∷◌, length, map, IfOk, IfErr};
ghost use Rattle.c_tree.specs.declared.def.Program.{Program};
ghost use Rattle.source_model.specs.Answers.{answer_seen};
ghost use Rattle.source_model.specs.Guards.{Guard, Setup, first_guard, lines_written};
ghost use Rattle.source_model.specs.Journals.{answers};
ghost use Rattle.source_model.specs.Patches.{all_names};
ghost use Rattle.patch_build.specs.Versions.{IsTableOf};
ghost use Rattle.source_programs.specs.Programs.{text_in};
ghost use Rattle.dsu_runs.specs.Setups.{limits_of, setup_of};
ghost use Rattle.installed_versions.specs.Firsts.{IsFirstFault};
ghost use Rattle.plain_engine.specs.Needs.{MeetsNeeds};
ghost use Rattle.plain_engine.specs.Plain.{IsAt};

use crate::state::State;
use dsu_io::Sink;
use installed_versions::FirstFault;
use name_sets::Names;
use run_machine::Machine;
use source_model::OfferAnswer;
use std::alloc::Global;

/// A machine run move by move, with the offers of newer texts, and with its output in a sink.
#[derive(Drop)]
pub struct PlainEngine<M, S> {
    pub(crate) state: State<M>,
    pub(crate) sink: S,
    /// How many bytes of the output the sink has.
    pub(crate) printed: usize,
    /// How many lines are among them.
    pub(crate) written: usize,
}

/// An engine that wasn't made.
#[derive(Drop)]
pub struct NotStarted<S> {
    pub sink: S,
    /// Why the first text has no first version, or that there was no memory.
    pub why: FirstFault,
}

impl<M: Machine, S: Sink> PlainEngine<M, S> {
    /// The start of a run over a machine at its start. Its texts are the first one and those of the offers, each with how many
    /// lines the program must have written before, and each legal run of them has what the machine needs. Where it isn't made,
    /// the sink comes back.
    pub fn over(
        alloc: Global,
        run: M,
        lines: Vec<u32>,
        sink: S,
    ) -> Result<PlainEngine<M, S>, NotStarted<S>>
        requires some { 0 < length (M.shown run).trees }
        requires few { length lines.items ≤ 63 }
        ensures start { (text : Program) (offers : List Program) (objects : ℕ) → length offers ≡ length lines.items
            → (M.shown run).trees ≡ text ∷ offers → (M.shown run).is_run (map text_in (text ∷ offers)) (limits_of objects) []
            → (M.shown run).kept ≡ 0 → let setup = setup_of text offers lines.items objects in MeetsNeeds (M.shown run).needs setup
            → IfOk result (λ e. IsAt M.shown setup (first_guard setup) e.state e.printed e.written) }
        ensures run { IfOk result (λ e. e.state.run ≡ run) }
        ensures told { IfOk result (λ e. e.sink ≡ sink) }
        ensures back { IfErr result (λ e. e.sink ≡ sink) }
        ensures fault { IfErr result (λ e. (text : Program) (offers : List Program) → (M.shown run).trees ≡ text ∷ offers
            → IsFirstFault text e.why) }
    {
        match State::first(alloc, run, lines) {
            Ok(state) => Ok(PlainEngine {
                state,
                sink,
                printed: 0,
                written: 0,
            }),
            Err(why) => Err(NotStarted { sink, why }),
        }
    }

    /// How many versions were installed, the first one among them.
    pub fn version(&self) -> u32
        ensures { (setup : Setup) (g : Guard) → IsAt M.shown setup g self.now.state self.now.printed self.now.written
            → result ≡ length g.versions }
    {
        self.state.installed.count()
    }

    /// The sink, with all that was printed; the answers to the offers; and the names for which the ids in the
    /// answers stand: those of all versions so far, each once.
    pub fn into_parts(self) -> (S, Vec<OfferAnswer>, Names)
        ensures sink { result.0 ≡ self.sink }
        ensures answers { result.1.items ≡ self.state.book.answers }
        ensures names { result.2 ≡ self.state.installed.names }
        ensures answered { (setup : Setup) (g : Guard) → IsAt M.shown setup g self.state self.printed self.written
            → map (answer_seen result.2) result.1.items ≡ answers setup g }
        ensures named { (setup : Setup) (g : Guard) → IsAt M.shown setup g self.state self.printed self.written
            → IsTableOf (all_names g.versions) result.2 }
    {
        let (answers, names) = self.state.into_parts();
        (self.sink, answers, names)
    }

    /// How many lines were printed.
    pub fn lines_written(&self) -> usize
        ensures { (setup : Setup) (g : Guard) → IsAt M.shown setup g self.now.state self.now.printed self.now.written
            → result ≡ lines_written g.world }
    {
        self.written
    }
}
