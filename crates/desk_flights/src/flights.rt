//! The captures in flight.

ghost use Rattle.std.specs.Prelude.{◌≡◌, ◌<◌, ◌≤◌, ◌==◌, [], length, position, option_map, nat_le, OnOk, OnErr};
ghost use Rattle.desk_commands.specs.Limits.{most_in_flight};
ghost use Rattle.desk_commands.specs.CallAnswers.{answer_of_turn};
ghost use Rattle.desk_flights.specs.Flights.{Adds, Finds, Removes, TellsFull, Turns};

use crate::flight::Flight;
use desk_commands::{DeskFault, Turn};
use std::alloc::{AllocError, Global};
use std::marker::Model;

/// The most captures in flight.
const MAX_FLIGHTS: usize = 64;

fn place_of(flights: &[Flight], ticket: u64) -> Option<usize>
    ensures { result ≡ position (λ f. f.ticket == ticket) flights.now }
{
    flights
        .iter()
        .position(|flight| flight.ticket() as u64 == ticket)
}

/// The captures in flight, in the order in which they began: sixty-four at most. Contracts see them as a list.
#[derive(Drop)]
pub struct Flights {
    flights: Vec<Flight>,
}

impl Model for Flights {
    ghost use Rattle.std.specs.Prelude.{List, ◌≤◌, length};
    ghost use Rattle.desk_flights.specs.FlightViews.{FlightView};

    ghost Value = { List FlightView };

    ghost view = { λ s. s.flights.items };

    ghost invariant = { λ s. length s.flights.items ≤ 64 };
}

impl Flights {
    /// No capture. It allocates nothing.
    pub fn new(alloc: Global) -> Flights
        ensures { result ≡ [] }
    {
        Flights {
            flights: Vec::new(alloc),
        }
    }

    /// Whether sixty-four captures are in flight.
    pub fn is_full(&self) -> bool
        ensures count { result ≡ nat_le most_in_flight (length self.now) }
        ensures flights { TellsFull self.now result }
    {
        self.flights.len() >= MAX_FLIGHTS
    }

    /// The first capture with that ticket, if there is one.
    pub fn get(&self, ticket: u64) -> Option<&Flight>
        ensures { Finds self.now ticket (option_map (λ f. f.now) result) }
    {
        let Some(at) = place_of(&self.flights, ticket) else {
            return None;
        };
        Some(&self.flights[at])
    }

    /// Lets the capture with that ticket make `count` more steps, at most. Refused where there is none (91), and where
    /// there is no memory (99); the capture then keeps the steps that were made before. No other capture is changed.
    pub fn turn(&mut self, ticket: u64, count: u32) -> Result<Turn, DeskFault>
        ensures { Turns self.old ticket count (answer_of_turn result) self.new }
    {
        let Some(at) = place_of(&self.flights, ticket) else {
            return Err(DeskFault::NoTicket);
        };
        let flight = &mut self.flights[at];
        let Ok(()) = flight.turn(count) else {
            return Err(DeskFault::NoMemory);
        };
        Ok(flight.turns_made())
    }

    /// Adds a capture after the others. The caller ensures that fewer than sixty-four are in flight. The only error is
    /// out of memory (99), and the captures are then unchanged.
    pub fn push(&mut self, flight: Flight) -> Result<(), AllocError>
        requires { length self.old < 64 }
        ensures ok { OnOk result (Adds self.old flight self.new) }
        ensures err { OnErr result (self.new ≡ self.old) }
    {
        self.flights.push(flight)?;
        Ok(())
    }

    /// Removes the first capture with that ticket, if there is one.
    pub fn remove(&mut self, ticket: u64)
        ensures { Removes self.old ticket self.new }
    {
        let Some(at) = place_of(&self.flights, ticket) else {
            return;
        };
        let _removed = self.flights.remove(at);
    }
}
