ghost use Rattle.std.specs.Prelude.{◌≡◌, ◌≤◌, ◌↔◌, [], Bool, Some, Err, IfOk, OnOk, OnErr};
ghost use Rattle.dmf_session.specs.declared.command.Command.TheVariants.{Cap, Add, Close, Shut, Solve, Undo, Redo, PrintCut};
ghost use Rattle.dmf_history.specs.declared.history.RedoFault.TheVariants as redo;
ghost use Rattle.dmf_history.specs.Timeline.{IsTimeline, IsPresent, future_of, back, forward, FitsPresent, Appends, AddsArcs};
ghost use Rattle.dmf_session.specs.Step.{Answers};
ghost use Rattle.dmf_session.specs.AppendedEdit.{AnswersAppended};
ghost use Rattle.dmf_session.specs.Kept.{KeepsPresent, KeepsApplied};
ghost use Rattle.dmf_session.specs.Optimal.{HasOptimalPresent};

use crate::command::{Command, Refusal, Reply};
use crate::kept::{kept_after, kept_before, kept_with};
use dmf_history::{History, RedoFault};
use dmf_solver::{
    NewCap, ResidualNetwork, Unwatched, Watch, greatest_is_optimal, plan_add, plan_cap_watched,
    plan_close_watched, plan_shut_watched, smallest_side,
};
use dmf_state::{Edit, NoMemory, State};
use std::alloc::Global;
use std::marker::Model;

/// A network that commands change, over the history that keeps its states.
///
/// From the first solve or drain on, the session also keeps the residual network of the present state, so that the next solve or drain
/// need not make it anew. The network follows each change, and each step back or forward if the history gives the edit, in the time that
/// [`ResidualNetwork::follow`] tells. The session drops the network if memory is refused.
#[derive(Drop)]
pub struct Session<H: History> {
    history: H,
    kept: Option<ResidualNetwork>,
}

impl<H: History> Model for Session<H> {
    ghost use Rattle.dmf_session.specs.Kept.{KeepsPresent};

    ghost Value = { H };

    ghost view = { λ s. s.history };

    ghost invariant = { λ s. KeepsPresent (H.timeline s.history) s.kept };
}

impl<H: History> Session<H> {
    /// Makes a session on the present state of the history.
    pub fn new(history: H) -> Self
        ensures { result ≡ history }
    {
        Session {
            history,
            kept: None,
        }
    }

    /// The history.
    pub fn history(&self) -> &H
        ensures { result.now ≡ self.now }
    {
        &self.history
    }

    /// The present state.
    pub fn present(&self) -> &State
        ensures state { IsPresent (H.timeline self.now) result.now }
        ensures timeline { IsTimeline (H.timeline self.now) }
    {
        self.history.present()
    }

    /// The number of states before the present one.
    pub fn past(&self) -> u32
        ensures count { result ≡ (H.timeline self.now).place }
        ensures timeline { IsTimeline (H.timeline self.now) }
    {
        self.history.past()
    }

    /// The number of states past the present one.
    pub fn future(&self) -> u32
        ensures count { result ≡ future_of (H.timeline self.now) }
        ensures timeline { IsTimeline (H.timeline self.now) }
    {
        self.history.future()
    }

    /// The bound: the most states that the history keeps before the present one. No command changes it.
    pub fn bound(&self) -> u32
        ensures count { result ≡ (H.timeline self.now).bound }
        ensures timeline { IsTimeline (H.timeline self.now) }
    {
        self.history.bound()
    }

    /// Carries out a command. If a change leads past the bound, the history forgets its oldest state.
    ///
    /// A refused command changes nothing. Only a change, a step forward over an added arc and a cut take memory. After a solve
    /// the value of the present flow is the greatest of all flows, and the capacity of the smallest minimum cut. With
    /// `want_cut` the reply has that cut.
    pub fn step(
        &mut self,
        alloc: Global,
        command: Command,
        want_cut: bool,
    ) -> Result<Reply, Refusal>
        ensures answer { Answers want_cut (H.timeline self.old) command result (H.timeline self.new) }
        ensures optimal { command ≡ Solve → OnOk result (HasOptimalPresent (H.timeline self.new)) }
    {
        self.step_watched(alloc, command, want_cut, &mut Unwatched)
    }

    /// Carries out a command as [`Session::step`] does, and reports to the watch each augmenting path of a solve, and what each path of a
    /// drain takes off.
    pub fn step_watched<W: Watch>(
        &mut self,
        alloc: Global,
        command: Command,
        want_cut: bool,
        watch: &mut W,
    ) -> Result<Reply, Refusal>
        ensures answer { Answers want_cut (H.timeline self.old) command result (H.timeline self.new) }
        ensures optimal { command ≡ Solve → OnOk result (HasOptimalPresent (H.timeline self.new)) }
    {
        let answer = self.carry_out(alloc, command, want_cut, watch);
        self.drop_if_refused(&answer);
        answer
    }

    // The calls below are not inlined: each would add its network to this frame.
    fn carry_out<W: Watch>(
        &mut self,
        alloc: Global,
        command: Command,
        want_cut: bool,
        watch: &mut W,
    ) -> Result<Reply, Refusal>
        ensures answer { Answers want_cut (H.timeline self.old) command result (H.timeline self.new) }
        ensures optimal { command ≡ Solve → OnOk result (HasOptimalPresent (H.timeline self.new)) }
    {
        match command {
            Command::Cap { arc, cap } => self.cap(alloc, NewCap { arc, cap }, watch),
            Command::Add { tail, head, cap } => self.add(alloc, tail, head, cap),
            Command::Close { arc } => self.close(alloc, arc, watch),
            Command::Shut { node } => self.shut(alloc, node, watch),
            Command::Solve => self.solve(alloc, want_cut, watch),
            Command::Undo(steps) => self.undo(alloc, steps),
            Command::Redo(steps) => self.redo(alloc, steps),
            Command::PrintProblem => Ok(Reply::Problem),
            Command::PrintFlow => Ok(Reply::Flow),
            Command::PrintCut => self.cut(alloc),
        }
    }

    #[inline(never)]
    fn cap<W: Watch>(&mut self, alloc: Global, new: NewCap, watch: &mut W) -> Result<Reply, Refusal>
        ensures { (want_cut : Bool) → Answers want_cut (H.timeline self.old) (Cap new.arc new.cap) result (H.timeline self.new) }
    {
        let edit = plan_cap_watched(alloc, self.history.present(), new, &mut self.kept, watch)?;
        let kept = self.kept.take();
        self.change(edit, kept)
    }

    #[inline(never)]
    fn add(&mut self, alloc: Global, tail: u64, head: u64, cap: u64) -> Result<Reply, Refusal>
        ensures { (want_cut : Bool) → Answers want_cut (H.timeline self.old) (Add tail head cap) result (H.timeline self.new) }
    {
        let edit = plan_add(self.present(), tail, head, cap)?;
        let kept = kept_with(alloc, self.kept.take(), self.history.present(), &edit);
        self.append(edit, kept)?;
        let present = self.present();
        Ok(Reply::Added(present.arcs().len() as u32, present.value()))
    }

    #[inline(never)]
    fn close<W: Watch>(&mut self, alloc: Global, arc: u64, watch: &mut W) -> Result<Reply, Refusal>
        ensures { (want_cut : Bool) → Answers want_cut (H.timeline self.old) (Close arc) result (H.timeline self.new) }
    {
        let edit = plan_close_watched(alloc, self.history.present(), arc, &mut self.kept, watch)?;
        let kept = self.kept.take();
        self.change(edit, kept)
    }

    #[inline(never)]
    fn shut<W: Watch>(&mut self, alloc: Global, node: u64, watch: &mut W) -> Result<Reply, Refusal>
        ensures { (want_cut : Bool) → Answers want_cut (H.timeline self.old) (Shut node) result (H.timeline self.new) }
    {
        let edit = plan_shut_watched(alloc, self.history.present(), node, &mut self.kept, watch)?;
        let kept = self.kept.take();
        self.change(edit, kept)
    }

    // Finds the side, if one is wanted, before the history takes the solve. So nothing has changed if memory is refused for the side.
    #[inline(never)]
    fn solve<W: Watch>(
        &mut self,
        alloc: Global,
        want_cut: bool,
        watch: &mut W,
    ) -> Result<Reply, Refusal>
        ensures answer { Answers want_cut (H.timeline self.old) Solve result (H.timeline self.new) }
        ensures optimal { OnOk result (HasOptimalPresent (H.timeline self.new)) }
    {
        greatest_is_optimal();
        let network = self.take_network(alloc)?;
        let (edit, side, solved) = network.plan_solve(alloc, self.present(), want_cut, watch)?;
        self.append(edit, Some(solved))?;
        Ok(Reply::Solution(side))
    }

    #[inline(never)]
    fn cut(&self, alloc: Global) -> Result<Reply, Refusal>
        ensures { (want_cut : Bool) → Answers want_cut (H.timeline self.now) PrintCut result (H.timeline self.now) }
    {
        let present = self.history.present();
        let side = match &self.kept {
            Some(network) => network.smallest_side(alloc, present)?,
            None => smallest_side(alloc, present)?,
        };
        Ok(Reply::Cut(side))
    }

    fn undo(&mut self, alloc: Global, steps: u64) -> Result<Reply, Refusal>
        ensures { (want_cut : Bool) → Answers want_cut (H.timeline self.old) (Undo steps) result (H.timeline self.new) }
    {
        if steps > u64::from(self.past()) {
            return Err(Refusal::NothingToUndo);
        }
        self.go_back(alloc, steps as u32);
        Ok(Reply::Value(self.present().value()))
    }

    #[inline(never)]
    fn redo(&mut self, alloc: Global, steps: u64) -> Result<Reply, Refusal>
        ensures { (want_cut : Bool) → Answers want_cut (H.timeline self.old) (Redo steps) result (H.timeline self.new) }
    {
        if steps > u64::from(self.future()) {
            return Err(Refusal::NothingToRedo);
        }
        for taken in 0..steps as u32 {
            if let Err(_) = self.go_on(alloc) {
                self.go_back(alloc, taken);
                return Err(Refusal::NoMemory);
            }
        }
        Ok(Reply::Value(self.present().value()))
    }

    /// Appends the state that the edit makes of the present one, keeps this network as [`Session::append`] does, and returns the value.
    fn change(&mut self, edit: Edit, kept: Option<ResidualNetwork>) -> Result<Reply, Refusal>
        requires fits { FitsPresent edit (H.timeline self.old) }
        requires kept { KeepsApplied edit (H.timeline self.old) kept }
        ensures { AnswersAppended edit (H.timeline self.old) result (H.timeline self.new) }
    {
        self.append(edit, kept)?;
        Ok(Reply::Value(self.present().value()))
    }

    /// Appends the state that the edit makes of the present one, and keeps this network, the network of the new state. If memory is
    /// refused, the session keeps none.
    fn append(&mut self, edit: Edit, kept: Option<ResidualNetwork>) -> Result<(), NoMemory>
        requires fits { FitsPresent edit (H.timeline self.old) }
        requires kept { KeepsApplied edit (H.timeline self.old) kept }
        ensures ok { OnOk result (Appends edit (H.timeline self.old) (H.timeline self.new)) }
        ensures err { OnErr result (H.timeline self.new ≡ H.timeline self.old) }
    {
        self.kept = None;
        self.history.append(edit)?;
        self.kept = kept;
        Ok(())
    }

    /// Takes the kept residual network of the present state, or makes one. The session keeps none afterwards.
    fn take_network(&mut self, alloc: Global) -> Result<ResidualNetwork, NoMemory>
        ensures unchanged { self.new ≡ self.old }
        ensures network { IfOk result (λ network. KeepsPresent (H.timeline self.old) (Some network)) }
    {
        match self.kept.take() {
            Some(network) => Ok(network),
            None => ResidualNetwork::new(alloc, self.history.present()),
        }
    }

    /// Drops the kept network if memory was refused, so that the next command finds more.
    fn drop_if_refused(&mut self, answer: &Result<Reply, Refusal>)
        ensures { self.new ≡ self.old }
    {
        if let Err(Refusal::NoMemory) = answer {
            self.kept = None;
        }
    }

    /// Steps one state forward. A kept network follows where it can. If memory is refused, the session keeps none.
    fn go_on(&mut self, alloc: Global) -> Result<(), RedoFault>
        ensures last { (result ≡ Err redo.NothingToRedo) ↔ (future_of (H.timeline self.old) ≡ 0) }
        ensures memory { result ≡ Err redo.NoMemory → AddsArcs (H.timeline self.old) (H.timeline self.old).place }
        ensures ok { OnOk result (H.timeline self.new ≡ forward (H.timeline self.old) 1) }
        ensures err { OnErr result (H.timeline self.new ≡ H.timeline self.old) }
    {
        let kept = kept_after(alloc, self.kept.take(), &self.history);
        self.history.redo()?;
        self.kept = kept;
        Ok(())
    }

    /// Steps so many states back. A kept network follows where it can.
    fn go_back(&mut self, alloc: Global, steps: u32)
        requires { steps ≤ (H.timeline self.old).place }
        ensures { H.timeline self.new ≡ back (H.timeline self.old) steps }
    {
        for _ in 0..steps {
            let kept = kept_before(alloc, self.kept.take(), &self.history);
            let _ = self.history.undo();
            self.kept = kept;
        }
    }
}
