// A new cabinet.
ghost use Rattle.std.specs.Prelude.{◌≡◌, ◌≤◌, true, vec_len};
ghost use Rattle.card.specs.Groups.{is_group};
ghost use Rattle.cabinets.specs.New.{MadeSeats, group_size, MadeCabinet};

use crate::cabinet::Cabinet;
use crate::seat::{Make, Seat};
use card::Refusal;
use fitted::NotMade;
use machine::Plain;
use std::alloc::Global;

// A card for each machine, in the order of the seats.
fn fit_all<A: Plain + Drop, B: Plain + Drop>(
    heap: Global,
    n: u32,
    machines: Vec<Make<A, B>>,
) -> Result<Vec<Seat<A, B>>, NotMade>
    requires group { is_group n 0 ≡ true }
    requires seats { vec_len machines ≤ n }
    ensures { MadeSeats A.Machine B.Machine n machines.items result }
{
    let mut seats = Vec::with_capacity(heap, machines.len())?;
    // No `map` with `try_collect`: that does not promise which card failed, and the contract says when one does.
    for machine in machines {
        let seat = seats.len() as u32;
        seats.push_reserved(Seat::make(heap, n, seat, machine)?);
    }
    Ok(seats)
}

// How many cards a group has for so many machines.
fn group_of(machines: usize) -> Option<u32>
    ensures { result ≡ group_size machines }
{
    match machines {
        3 | 5 | 7 => Some(machines as u32),
        _ => None,
    }
}

impl<A: Plain + Drop, B: Plain + Drop> Cabinet<A, B> {
    // A new cabinet of three, five or seven cards: one for each machine, in the order of the seats.
    pub fn make(heap: Global, machines: Vec<Make<A, B>>) -> Result<Cabinet<A, B>, NotMade>
        ensures { MadeCabinet A.Machine B.Machine machines.items result }
    {
        let n = group_of(machines.len()).ok_or(Refusal::NoSuchGroup)?;
        let seats = fit_all(heap, n, machines)?;
        Ok(Cabinet::new(heap, seats))
    }
}
