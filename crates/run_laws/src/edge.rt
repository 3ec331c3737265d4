//! What a node writes over HTTP, and what the world sends.
ghost use Rattle.std.specs.Prelude.{◌≡◌, ℕ, List, Some};
ghost use Rattle.node_rules.specs.declared.reply.Served.{Served};
ghost use Rattle.node_rules.specs.Tags.{retag_served};
ghost use Rattle.http_writing.specs.Answer.{answer_text};
ghost use Rattle.node_serving.specs.Serving.{serve_text};
ghost use Rattle.world_rules.specs.World.{answer_of};

/// A member is written the octets of the response that the world sends it, for a copy and for a
/// bare status. Tags are no part of the octets.
pub fn members_are_written_what_the_world_sends()
    ensures { (asker : ℕ) (served : Served ℕ) (via : List ℕ) →
        serve_text (Some asker) (retag_served (λ _. tt) served) via
        ≡ answer_text (answer_of served) via }
{}
