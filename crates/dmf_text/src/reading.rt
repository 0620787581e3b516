//! Taking the lines of a problem text, one after the other.
ghost use Rattle.std.specs.Prelude.{◌≡◌, ◌≢◌, ◌<◌, ◌≤◌, ◌&&◌, ◌∷◌, ◌^◌, [], ℕ, List, false, true, codes, length, replicate, is_some, IsTrue};
ghost use Rattle.std.specs.Prelude.{MatchResult, Ok, Err, Some, None};
ghost use Rattle.std.specs.Option.{ForSome};
ghost use Rattle.dmf_node.specs.Node.{is_node};
ghost use Rattle.dmf_text.specs.declared.fault.ProblemFaultKind.TheVariants as kinds;
ghost use Rattle.dmf_text.specs.Numbers.{AreSpelled};

use crate::arc_line::{ArcLine, ProblemLine};
use crate::digits::number;
use crate::exact_fields::three_fields;
use crate::fault::ProblemFaultKind;
use crate::field::Fields;
use crate::numbers::three_numbers;
use crate::terminal::{Terminal, named};
use dmf_state::{MAX_ARCS, MAX_NODES, State};
use std::alloc::Global;

/// What the problem line says, and the source or the sink if a node line names one of them.
#[derive(Drop)]
pub(crate) struct Head {
    nodes: u32,
    arcs: u32,
    source: Option<u32>,
    sink: Option<u32>,
    ghost at_least_two: { 2 ≤ nodes },
    ghost at_most_nodes: { nodes ≤ 2 ^ 24 },
    ghost at_most_arcs: { arcs ≤ 2 ^ 27 },
    ghost source_is_node: { ForSome source (λ v. IsTrue (is_node nodes v)) },
    ghost sink_is_node: { ForSome sink (λ v. IsTrue (is_node nodes v)) },
    ghost not_both: { (is_some source && is_some sink) ≡ false },
}

/// The network so far, and the number of arcs that the problem line says.
#[derive(Drop)]
pub(crate) struct Body {
    arcs: u32,
    state: State,
    ghost at_most_arcs: { arcs ≤ 2 ^ 27 },
    ghost not_too_many: { length state.network.arcs ≤ arcs },
    ghost idle: { state.flows ≡ replicate (length state.network.arcs) 0 },
}

/// What the lines of a problem text say so far.
#[derive(Drop)]
pub(crate) enum Reading {
    /// There was no problem line yet.
    Start,
    /// The source or the sink is not named yet.
    Terminals(Head),
    /// Source and sink are named.
    Arcs(Body),
}

impl Reading {
    ghost use Rattle.dmf_text.specs.Fields.{fields};
    ghost use Rattle.dmf_text.specs.Problem.{judged, judged_problem, judged_node, judged_arc, ended};
    ghost use Rattle.dmf_text.specs.ProblemLine.{IsLine};
    ghost use Rattle.dmf_text.specs.Reading.{facts_in, Takes, TakesInMemory};

    /// Takes the next line. Fails with its fault, or if memory is refused.
    pub(crate) fn take_line(
        &mut self,
        alloc: Global,
        line: ProblemLine<'_>,
    ) -> Result<(), ProblemFaultKind>
        ensures { (bytes : List ℕ) → IsLine line.entry bytes → TakesInMemory (facts_in self.old) (fields bytes)
            (judged (facts_in self.old) (fields bytes)) (facts_in self.new) result }
    {
        match line {
            ProblemLine::Arc(arc) => self.take_arc(arc),
            ProblemLine::Bytes(line) => self.take_bytes(alloc, line),
        }
    }

    /// Takes the next line, of these bytes.
    fn take_bytes(&mut self, alloc: Global, line: &[u8]) -> Result<(), ProblemFaultKind>
        ensures { TakesInMemory (facts_in self.old) (fields line.now)
            (judged (facts_in self.old) (fields line.now)) (facts_in self.new) result }
    {
        let mut behind = Fields::new(line);
        let Some(kind) = behind.next() else {
            return Ok(());
        };
        if kind == b"a".as_slice() {
            self.take_arc_line(behind)
        } else if kind == b"n".as_slice() {
            self.take_node_line(alloc, behind)
        } else if kind == b"p".as_slice() {
            self.take_problem_line(behind)
        } else if kind.starts_with(b"c") {
            Ok(())
        } else {
            Err(ProblemFaultKind::UnknownLine)
        }
    }

    /// Takes a problem line. These are the fields after its first.
    #[tactic(auto, unfolding(crate::specs::Problem::judged_problem))]
    fn take_problem_line(&mut self, behind: Fields<'_>) -> Result<(), ProblemFaultKind>
        ensures { Takes (facts_in self.old) (codes "p" ∷ behind.entry)
            (judged_problem (facts_in self.old) behind.entry) (facts_in self.new) result }
    {
        let Reading::Start = self else {
            return Err(ProblemFaultKind::SecondProblemLine);
        };
        *self = Reading::Terminals(Head::of_problem_line(behind)?);
        Ok(())
    }

    /// Takes a node line. These are the fields after its first.
    #[tactic(auto, unfolding(crate::specs::Problem::judged_node))]
    fn take_node_line(&mut self, alloc: Global, behind: Fields<'_>) -> Result<(), ProblemFaultKind>
        ensures { Takes (facts_in self.old) (codes "n" ∷ behind.entry)
            (judged_node (facts_in self.old) behind.entry) (facts_in self.new) result }
    {
        match self {
            Reading::Start => Err(ProblemFaultKind::ProblemLineExpected),
            Reading::Terminals(head) => {
                *self = head.with_terminal(alloc, behind)?;
                Ok(())
            }
            Reading::Arcs(body) => {
                named(body.state.nodes(), behind)?;
                Err(ProblemFaultKind::SecondTerminal)
            }
        }
    }

    /// Takes an arc line. These are the fields after its first.
    #[tactic(auto, unfolding(crate::specs::Problem::judged_arc))]
    fn take_arc_line(&mut self, behind: Fields<'_>) -> Result<(), ProblemFaultKind>
        ensures { TakesInMemory (facts_in self.old) (codes "a" ∷ behind.entry)
            (judged_arc (facts_in self.old) behind.entry) (facts_in self.new) result }
    {
        match self {
            Reading::Start => Err(ProblemFaultKind::ProblemLineExpected),
            Reading::Terminals(_) => Err(ProblemFaultKind::ArcBeforeTerminals),
            Reading::Arcs(body) => body.take_arc_line(behind),
        }
    }

    /// Takes an arc line of these numbers.
    #[tactic(auto, unfolding(crate::specs::Problem::judged_arc))]
    fn take_arc(&mut self, arc: ArcLine) -> Result<(), ProblemFaultKind>
        ensures { (behind : List (List ℕ)) → AreSpelled behind arc.tail arc.head arc.cap → TakesInMemory (facts_in self.old)
            (codes "a" ∷ behind) (judged_arc (facts_in self.old) behind) (facts_in self.new) result }
    {
        match self {
            Reading::Start => Err(ProblemFaultKind::ProblemLineExpected),
            Reading::Terminals(_) => Err(ProblemFaultKind::ArcBeforeTerminals),
            Reading::Arcs(body) => {
                body.expect_more()?;
                body.push(arc)
            }
        }
    }

    /// The state that the lines stand for, at the end of the text.
    #[tactic(auto, unfolding(crate::specs::Problem::ended))]
    pub(crate) fn finish(self) -> Result<State, ProblemFaultKind>
        ensures { result ≡ ended (facts_in self) }
    {
        match self {
            Reading::Start => Err(ProblemFaultKind::ProblemLineExpected),
            Reading::Terminals(_) => Err(ProblemFaultKind::TerminalMissing),
            Reading::Arcs(body) => body.finish(),
        }
    }
}

impl Head {
    ghost use Rattle.dmf_text.specs.Problem.{counts_named, judged_node};
    ghost use Rattle.dmf_text.specs.Reading.{facts_in, facts_in_head, with_line, no_facts, Takes};

    /// What a problem line says. These are the fields after its first.
    #[tactic(auto, unfolding(crate::specs::Problem::counts_named))]
    fn of_problem_line(behind: Fields<'_>) -> Result<Head, ProblemFaultKind>
        ensures { MatchResult result
            (λ head. (counts_named behind.entry ≡ Ok (record { nodes = head.nodes; arcs = head.arcs }))
            × (facts_in_head head ≡ with_line no_facts (codes "p" ∷ behind.entry)))
            (λ kind. counts_named behind.entry ≡ Err kind) }
    {
        let (word, nodes, arcs) = three_fields(behind)?;
        if word != b"max".as_slice() {
            return Err(ProblemFaultKind::NotMax);
        }
        let nodes = number(nodes)?;
        let arcs = number(arcs)?;
        if nodes < 2 || nodes > u64::from(MAX_NODES) || arcs > u64::from(MAX_ARCS) {
            return Err(ProblemFaultKind::CountOutOfRange);
        }
        Ok(Head {
            nodes: nodes as u32,
            arcs: arcs as u32,
            source: None,
            sink: None,
        })
    }

    /// Takes a node line. These are the fields after its first. Once source and sink are named, there is a network.
    #[tactic(auto, unfolding(crate::specs::Problem::judged_node))]
    fn with_terminal(&self, alloc: Global, behind: Fields<'_>) -> Result<Reading, ProblemFaultKind>
        ensures { MatchResult result
            (λ reading. (judged_node (facts_in_head self.now) behind.entry ≡ Ok tt)
            × (facts_in reading ≡ with_line (facts_in_head self.now) (codes "n" ∷ behind.entry)))
            (λ kind. judged_node (facts_in_head self.now) behind.entry ≡ Err kind) }
    {
        let (terminal, node) = named(self.nodes, behind)?;
        let (own, source, sink) = match terminal {
            Terminal::Source => (self.source, Some(node), self.sink),
            Terminal::Sink => (self.sink, self.source, Some(node)),
        };
        if own.is_some() {
            return Err(ProblemFaultKind::SecondTerminal);
        }
        let (nodes, arcs) = (self.nodes, self.arcs);
        match (source, sink) {
            (Some(source), Some(sink)) if source == sink => Err(ProblemFaultKind::SameTerminals),
            (Some(source), Some(sink)) => Ok(Reading::Arcs(Body {
                arcs,
                state: State::new(alloc, nodes, source, sink),
            })),
            _ => Ok(Reading::Terminals(Head {
                nodes,
                arcs,
                source,
                sink,
            })),
        }
    }
}

impl Body {
    ghost use Rattle.dmf_text.specs.Problem.{judged_arc, ended};
    ghost use Rattle.dmf_text.specs.Reading.{facts_in_body, TakesInMemory};

    /// Takes an arc line. These are the fields after its first.
    #[tactic(auto, unfolding(crate::specs::Problem::judged_arc))]
    fn take_arc_line(&mut self, behind: Fields<'_>) -> Result<(), ProblemFaultKind>
        ensures { TakesInMemory (facts_in_body self.old) (codes "a" ∷ behind.entry)
            (judged_arc (facts_in_body self.old) behind.entry) (facts_in_body self.new) result }
    {
        self.expect_more()?;
        let (tail, head, cap) = three_numbers(behind)?;
        self.push(ArcLine { tail, head, cap })
    }

    /// Fails if there are as many arcs as the problem line says.
    fn expect_more(&self) -> Result<(), ProblemFaultKind>
        ensures { MatchResult result (λ _. length self.now.state.network.arcs < self.now.arcs)
            (λ kind. (kind ≡ kinds.TooManyArcs) × (self.now.arcs ≤ length self.now.state.network.arcs)) }
    {
        if self.state.arcs().len() >= self.arcs as usize {
            return Err(ProblemFaultKind::TooManyArcs);
        }
        Ok(())
    }

    /// Takes an arc line of these numbers, where there are fewer arcs than the problem line says.
    #[inline(always)]
    fn push(&mut self, arc: ArcLine) -> Result<(), ProblemFaultKind>
        requires { length self.old.state.network.arcs < self.old.arcs }
        ensures { (behind : List (List ℕ)) → AreSpelled behind arc.tail arc.head arc.cap → TakesInMemory (facts_in_body self.old)
            (codes "a" ∷ behind) (judged_arc (facts_in_body self.old) behind) (facts_in_body self.new) result }
    {
        self.state.push_arc(arc.tail, arc.head, arc.cap)?;
        Ok(())
    }

    /// The state that the lines stand for, at the end of the text.
    #[tactic(auto, unfolding(crate::specs::Problem::ended))]
    fn finish(self) -> Result<State, ProblemFaultKind>
        ensures { result ≡ ended (facts_in_body self) }
    {
        if self.state.arcs().len() < self.arcs as usize {
            return Err(ProblemFaultKind::TooFewArcs);
        }
        let Body { state, .. } = self;
        Ok(state)
    }
}
