// Searching in a list, by a test. Each search is proved once, for every type and every test.
#![tactic(auto)]

ghost use Rattle.std.specs.Prelude.{◌≡◌, ◌<◌, ◌≤◌, Bool, length, drop, IfSome};
ghost use Rattle.std.specs.List.{position_from};
ghost use Rattle.scan.specs.Scans.{IsTest, highest_of};

// The first place, from `start` on, whose item passes. The loop hands on what it found by `break`: the form that the compatibility scan is asked to have.
pub fn first<T, F: Fn(&T) -> bool>(items: &[T], start: usize, test: F) -> Option<usize>
    requires { F.IsAlwaysCallable test }
    ensures value { (p : T → Bool) → IsTest (F.post test) p → result ≡ position_from p start (drop start items.now) }
    ensures bound { IfSome result (λ place. place < length items.now) }
{
    let mut found = None;
    for (place, item) in items.iter().enumerate().skip(start) {
        if test(item) {
            found = Some(place);
            break;
        }
    }
    found
}

// The number of the last item that passes, counted from 1; 0 where none does, as a dependency on nothing is 0.
pub fn highest<T, F: Fn(&T) -> bool>(items: &[T], test: F) -> usize
    requires { F.IsAlwaysCallable test }
    ensures value { (p : T → Bool) → IsTest (F.post test) p → result ≡ highest_of p items.now }
    ensures bound { result ≤ length items.now }
{
    items.iter().rposition(test).map_or(0, |place| place + 1)
}
