//! What the definition of a rewriting comes to. Nothing here is for use.
ghost use Rattle.std.specs.Prelude.{◌≡◌, ◌≤◌};
ghost use Rattle.http_target.specs.declared.read.Target.{Target};
ghost use Rattle.rewrite.specs.declared.rewriting.Rewritten.TheVariants as answer;
ghost use Rattle.rewrite.specs.Rules.{Lists};
ghost use Rattle.rewrite.specs.Rewriting.{rewritten};

/// At most a hundred new targets are taken, a loop is answered after a hundred alone, and Same after none alone.
pub fn a_rewriting_ends()
    ensures passes { (lists : Target → Lists) (target : Target) → (rewritten lists target).passes ≤ 100 }
    ensures looped { (lists : Target → Lists) (target : Target) → (rewritten lists target).answer ≡ answer.Loop → (rewritten lists target).passes ≡ 100 }
    ensures same { (lists : Target → Lists) (target : Target) → (rewritten lists target).answer ≡ answer.Same → (rewritten lists target).passes ≡ 0 }
{}
