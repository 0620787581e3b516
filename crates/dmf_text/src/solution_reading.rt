//! Taking the lines of a solution text, one after the other.
ghost use Rattle.std.specs.Prelude.{◌≡◌, ◌⊎◌, ◌∷◌, List, codes, Err};
ghost use Rattle.dmf_state.specs.declared.arc.Arc.{Arc};
ghost use Rattle.dmf_text.specs.declared.fault.SolutionFaultKind.TheVariants.{NoMemory};
ghost use Rattle.dmf_text.specs.Fields.{fields};
ghost use Rattle.dmf_text.specs.Solution.{Facts, judged, judged_value, judged_flow, ended};
ghost use Rattle.dmf_text.specs.SolutionReading.{Keeps, TakesSolutionLine};

use crate::digits::number;
use crate::exact_fields::one_field;
use crate::fault::SolutionFaultKind;
use crate::field::Fields;
use crate::numbers::three_numbers;
use crate::pairs::{PairTable, pair_of};
use dmf_state::State;
use std::alloc::{AllocError, Global};

/// What the lines of a solution text say so far.
#[derive(Drop)]
pub(crate) struct SolutionReading<'a> {
    pairs: PairTable<'a>,
    value: Option<u64>,
    /// The number of flow lines so far, which guesses the arc of the next line, since lines mostly come in arc order.
    flow_count: usize,
}

impl<'a> SolutionReading<'a> {
    ghost use Rattle.std.specs.Prelude.{IfOk, None, []};

    /// The reading before the first line. Takes memory for the pairs of the network.
    pub(crate) fn new(alloc: Global, state: &'a State) -> Result<SolutionReading<'a>, AllocError>
        ensures { IfOk result (Keeps state.now.network.arcs (record { value = None; flows = [] })) }
    {
        let pairs = PairTable::of_arcs(alloc, state.arcs())?;
        Ok(SolutionReading {
            pairs,
            value: None,
            flow_count: 0,
        })
    }

    /// Takes the next line. Fails with its fault.
    pub(crate) fn take_line(&mut self, line: &[u8]) -> Result<(), SolutionFaultKind>
        ensures { (arcs : List Arc) (facts : Facts) → Keeps arcs facts self.old
            → TakesSolutionLine arcs facts (fields line.now) (judged arcs facts (fields line.now)) self.new result }
    {
        let mut behind = Fields::new(line);
        let Some(kind) = behind.next() else {
            return Ok(());
        };
        if kind == b"f".as_slice() {
            self.take_flow_line(behind)
        } else if kind == b"s".as_slice() {
            self.take_value_line(behind)
        } else if kind.starts_with(b"c") {
            Ok(())
        } else {
            Err(SolutionFaultKind::UnknownLine)
        }
    }

    /// Takes a value line. These are the fields after its first.
    #[tactic(auto, unfolding(crate::specs::Solution::judged_value))]
    fn take_value_line(&mut self, behind: Fields<'_>) -> Result<(), SolutionFaultKind>
        ensures { (arcs : List Arc) (facts : Facts) → Keeps arcs facts self.old
            → TakesSolutionLine arcs facts (codes "s" ∷ behind.entry) (judged_value facts behind.entry) self.new result }
    {
        if self.value.is_some() {
            return Err(SolutionFaultKind::SecondValue);
        }
        self.value = Some(number(one_field(behind)?)?);
        Ok(())
    }

    /// Takes a flow line. These are the fields after its first.
    #[tactic(auto, unfolding(crate::specs::Solution::judged_flow))]
    fn take_flow_line(&mut self, behind: Fields<'_>) -> Result<(), SolutionFaultKind>
        ensures { (arcs : List Arc) (facts : Facts) → Keeps arcs facts self.old
            → TakesSolutionLine arcs facts (codes "f" ∷ behind.entry) (judged_flow arcs facts behind.entry) self.new result }
    {
        let (tail, head, flow) = three_numbers(behind)?;
        let Some(pair) = pair_of(tail, head) else {
            return Err(SolutionFaultKind::NoSuchPair);
        };
        let guess = self.flow_count;
        self.flow_count = self.flow_count.wrapping_add(1);
        self.pairs.add_flow(pair, flow, guess)
    }

    /// The state that the lines stand for at the end of the text: the network of `state`, with the flows of the lines.
    #[tactic(auto, unfolding(crate::specs::Solution::ended))]
    pub(crate) fn finish(self, alloc: Global, state: &State) -> Result<State, SolutionFaultKind>
        ensures { (facts : Facts) → Keeps state.now.network.arcs facts self.entry → (result ≡ Err NoMemory) ⊎ (result ≡ ended state.now facts) }
    {
        let SolutionReading { pairs, value, .. } = self;
        let Some(value) = value else {
            return Err(SolutionFaultKind::ValueMissing);
        };
        let flows = pairs.put_on(alloc, state.arcs())?;
        let solution = state.with_flows(alloc, flows)?;
        if solution.value() != value {
            return Err(SolutionFaultKind::ValueDiffers);
        }
        Ok(solution)
    }
}
