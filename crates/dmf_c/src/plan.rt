ghost use Rattle.std.specs.Prelude.{◌≡◌, ◌↔◌, false, None, IfOk, IfSome, OnOk};
ghost use Rattle.dmf_history.specs.Timeline.{IsTimeline, IsPresent, LeadsBack, future_of};
ghost use Rattle.dmf_session.specs.declared.command.Command.TheVariants.{Solve};
ghost use Rattle.dmf_session.specs.Optimal.{HasOptimalPresent};
ghost use Rattle.dmf_session.specs.Step.{Answers};

use crate::flag::StopWatch;
use dmf_session::{Command, DeltaHistory, History, Refusal, Reply, Session};
use dmf_state::{Edit, NoMemory, State};
use std::alloc::Global;
use std::marker::Model;

/// A session whose history keeps edits.
#[derive(Drop)]
pub struct Plan {
    session: Session<DeltaHistory>,
}

impl Model for Plan {
    ghost use Rattle.dmf_history.specs.Timeline.{Timeline};

    ghost Value = { Timeline };

    ghost view = { λ p. p.session };
}

impl Plan {
    /// Makes a session of this history.
    pub fn new(history: DeltaHistory) -> Plan
        ensures { result ≡ history }
    {
        Plan {
            session: Session::new(history),
        }
    }

    /// Copies the session, but not the residual network that it keeps. Fails only if memory is refused.
    pub fn copy(&self, alloc: Global) -> Result<Plan, NoMemory>
        ensures { IfOk result (λ copy. copy ≡ self.now) }
    {
        let history = self.session.history().copy(alloc)?;
        Ok(Plan::new(history))
    }

    /// Carries out a command, as [`Session::step`] does.
    pub fn step(&mut self, alloc: Global, command: Command) -> Result<Reply, Refusal>
        ensures answer { Answers false self.old command result self.new }
        ensures optimal { command ≡ Solve → OnOk result (HasOptimalPresent self.new) }
    {
        self.session.step(alloc, command, false)
    }

    /// Solves, as [`Session::step_watched`] does: the watch may end the solve.
    pub fn solve_until(
        &mut self,
        alloc: Global,
        watch: &mut StopWatch<'_>,
    ) -> Result<Reply, Refusal>
        ensures answer { Answers false self.old Solve result self.new }
        ensures optimal { OnOk result (HasOptimalPresent self.new) }
    {
        self.session
            .step_watched(alloc, Command::Solve, false, watch)
    }

    /// The present state.
    pub fn present(&self) -> &State
        ensures state { IsPresent self.now result.now }
        ensures timeline { IsTimeline self.now }
    {
        self.session.present()
    }

    /// The edit that made the present state of the one before it, if there is one.
    pub fn last_edit(&self) -> Option<&Edit>
        ensures edit { IfSome result (λ edit. LeadsBack edit.now self.now) }
        ensures none { (result ≡ None) ↔ (self.now.place ≡ 0) }
    {
        self.session.history().last_edit()
    }

    /// The number of states before the present one.
    pub fn past(&self) -> u32
        ensures count { result ≡ self.now.place }
    {
        self.session.past()
    }

    /// The number of states past the present one.
    pub fn future(&self) -> u32
        ensures count { result ≡ future_of self.now }
    {
        self.session.future()
    }
}
