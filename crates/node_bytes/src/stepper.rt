ghost use Rattle.std.specs.Prelude.{IfOk, Result};
ghost use Rattle.node_rules.specs.declared.event.Event.{Event};
ghost use Rattle.node_rules.specs.declared.reply.Reply.{Reply};
ghost use Rattle.node_rules.specs.declared.reply.StepFault.{StepFault};
ghost use Rattle.floor_rules.specs.Store.{HaveRisen};
ghost use Rattle.node_bytes.specs.Stepping.{AnswersAsk};
ghost use Rattle.node_bytes.specs.Nodes.{TakesStep};

use floor_rules::FloorStore;
use node_core::Node;
use node_rules::{Event, Reply, StepFault};

/// Takes the steps of a node: the node itself, or a handle on a node that threads share.
pub trait Stepper {
    // Whether a step may lead from this state, by this event, to this outcome and this state.
    ghost takes: { Self → Event (Unit {0}) → Result (Reply (Unit {0})) StepFault → Self → Type 0 };

    /// Takes one step. A request is served at once, and the step does nothing else; or it waits for
    /// what the step begins.
    fn step(&mut self, event: Event<()>) -> Result<Reply<()>, StepFault>
        ensures takes { takes self.old event result self.new }
        ensures asks { IfOk result (AnswersAsk event) };
}

impl<S: FloorStore> Stepper for Node<(), S> {
    ghost takes = { λ before event outcome after. TakesStep (S.is_honest after.store)
        (S.may_find after.store) (HaveRisen (S.failed before.store) (S.failed after.store))
        before event outcome after };

    fn step(&mut self, event: Event<()>) -> Result<Reply<()>, StepFault> {
        Node::step(self, event, ())
    }
}
