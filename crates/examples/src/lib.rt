// The rules at work.
#![tactic(auto)]

ghost use Rattle.std.specs.Prelude.{◌≡◌, true};
ghost use Rattle.examples.specs.Examples.{all_pass, examples};

// Every worked example comes out as it should.
pub fn examples_hold()
    ensures { all_pass examples ≡ true }
{}
