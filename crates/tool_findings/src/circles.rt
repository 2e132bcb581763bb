//! Where the includes of scripts lead: back to a script that is still running, or too deep.

use std::alloc::{AllocError, Global};

/// An include of one of some scripts, which are named by their numbers.
#[derive(Clone, Copy)]
pub struct Edge {
    /// The script that is included.
    pub to: usize,
    /// Where it is named, an offset in octets in the including script.
    pub at: usize,
    /// Whether nothing is done where the script was entered before.
    pub is_once: bool,
}

/// Includes that come back to a script that is still running.
#[derive(Drop)]
pub struct Circle {
    /// The scripts by their numbers, each of which includes the next one. The last one includes the first one again.
    pub scripts: Vec<usize>,
    /// Where the last one names the first one, an offset in octets.
    pub at: usize,
}

impl Circle {
    /// Whether its last script is one, and its first script another.
    fn joins(&self, last: usize, first: usize) -> bool {
        match (self.scripts.first(), self.scripts.last()) {
            (Some(own_first), Some(own_last)) => *own_first == first && *own_last == last,
            _ => false,
        }
    }
}

/// A script in a chain, and where it names the next one.
#[derive(Clone, Copy)]
pub struct Link {
    pub script: usize,
    /// An offset in octets.
    pub at: usize,
}

/// Where the includes of some scripts lead.
#[derive(Drop)]
pub struct Includes {
    /// Includes that come back to a script that is still running, up to twenty.
    pub circles: Vec<Circle>,
    /// The first eight of nine scripts or more that are inside one another, the first script of all first, each with
    /// where it names the next one; none where no nine are. An include that comes back leads no deeper.
    pub chain: Vec<Link>,
    /// The ninth script of that chain.
    pub ninth: usize,
}

/// The greatest number of circles that are reported.
const MAX_CIRCLES: usize = 20;

/// How many scripts may be inside one another.
const MAX_DEPTH: usize = 8;

/// What is known of a script.
#[derive(Clone, Copy)]
enum State {
    New,
    Running,
    /// So many scripts are inside one another from it on, itself among them, by its first include that leads as deep.
    Done(usize, Option<Edge>),
}

/// A script that is running, and how many of its includes were followed.
#[derive(Clone, Copy)]
struct Open {
    script: usize,
    followed: usize,
    /// The depth of the scripts that it includes, and the include that leads there.
    deepest: usize,
    by: Option<Edge>,
}

/// A walk along includes, each script of which is entered once.
#[derive(Drop)]
struct Walk<'s> {
    alloc: Global,
    scripts: &'s [Vec<Edge>],
    states: Vec<State>,
    open: Vec<Open>,
    circles: Vec<Circle>,
}

impl<'s> Walk<'s> {
    /// A walk that has entered the first one of some scripts.
    fn begin(alloc: Global, scripts: &'s [Vec<Edge>]) -> Result<Walk<'s>, AllocError> {
        let mut walk = Walk {
            alloc,
            scripts,
            states: Vec::with_capacity(alloc, scripts.len())?,
            open: Vec::new(alloc),
            circles: Vec::new(alloc),
        };
        for _ in scripts {
            walk.states.push(State::New)?;
        }
        walk.enter(0)?;
        Ok(walk)
    }
}

impl Walk<'_> {
    /// Sets what is known of a script.
    fn set(&mut self, script: usize, state: State) {
        if let Some(known) = self.states.get_mut(script) {
            *known = state;
        }
    }

    /// Enters a script.
    fn enter(&mut self, script: usize) -> Result<(), AllocError> {
        self.set(script, State::Running);
        self.open.push(Open {
            script,
            followed: 0,
            deepest: 0,
            by: None,
        })?;
        Ok(())
    }

    /// The next include of the script that was entered last; none where all were followed.
    fn next_edge(&mut self) -> Option<Edge> {
        let last = self.open.last_mut()?;
        let edge = self.scripts.get(last.script)?.get(last.followed).copied()?;
        last.followed = last.followed.saturating_add(1);
        Some(edge)
    }

    /// Whether it is noted that the script that was entered last includes a script that is running.
    fn is_noted(&self, edge: Edge) -> bool {
        let Some(open) = self.open.last() else {
            return false;
        };
        self.circles
            .iter()
            .any(|circle| circle.joins(open.script, edge.to))
    }

    /// Notes that an include comes back, once for each two scripts, and up to twenty times.
    fn note(&mut self, edge: Edge) -> Result<(), AllocError> {
        if self.circles.len() >= MAX_CIRCLES || self.is_noted(edge) {
            return Ok(());
        }
        let mut scripts = Vec::new(self.alloc);
        for open in self.open.as_slice() {
            if !scripts.is_empty() || open.script == edge.to {
                scripts.push(open.script)?;
            }
        }
        self.circles.push(Circle {
            scripts,
            at: edge.at,
        })?;
        Ok(())
    }

    /// Takes into account how deep an include leads.
    fn deepen(&mut self, edge: Edge, depth: usize) {
        if let Some(last) = self.open.last_mut() {
            if depth > last.deepest {
                last.deepest = depth;
                last.by = Some(edge);
            }
        }
    }

    /// Follows an include.
    fn follow(&mut self, edge: Edge) -> Result<(), AllocError> {
        match self.states.get(edge.to).copied() {
            Some(State::New) => self.enter(edge.to),
            Some(State::Running) if !edge.is_once => self.note(edge),
            Some(State::Done(depth, _)) => {
                self.deepen(edge, depth);
                Ok(())
            }
            _ => Ok(()),
        }
    }

    /// The include by which the script was entered that was entered last.
    fn last_followed(&self) -> Option<Edge> {
        let last = self.open.last()?;
        let place = last.followed.checked_sub(1)?;
        self.scripts.get(last.script)?.get(place).copied()
    }

    /// Leaves the script that was entered last; false where none is running.
    fn leave(&mut self) -> bool {
        let Some(open) = self.open.pop() else {
            return false;
        };
        let depth = open.deepest.saturating_add(1);
        self.set(open.script, State::Done(depth, open.by));
        if let Some(edge) = self.last_followed() {
            self.deepen(edge, depth);
        }
        true
    }

    /// Follows all includes, until no script is running.
    fn follow_all(&mut self) -> Result<(), AllocError> {
        for _ in 0..u64::MAX {
            match self.next_edge() {
                Some(edge) => self.follow(edge)?,
                None if self.leave() => {}
                None => break,
            }
        }
        Ok(())
    }

    /// The include that leads deepest from a script.
    fn deepest_edge(&self, script: usize) -> Option<Edge> {
        match self.states.get(script).copied() {
            Some(State::Done(_, by)) => by,
            _ => None,
        }
    }

    /// The chain of nine scripts from the first one on, without its last script, and that script.
    fn chain(&self) -> Result<(Vec<Link>, usize), AllocError> {
        let mut links = Vec::new(self.alloc);
        let mut script = 0;
        for _ in 0..MAX_DEPTH {
            let Some(edge) = self.deepest_edge(script) else {
                return Ok((Vec::new(self.alloc), 0));
            };
            links.push(Link {
                script,
                at: edge.at,
            })?;
            script = edge.to;
        }
        Ok((links, script))
    }
}

/// Where the includes of some scripts lead, in a walk from the first of them along their includes in order. Each script
/// is entered once, so of the ways that lead into a circle the first one is reported. An include with `:once` comes back
/// to nothing. Takes time linear in the scripts and includes. The only error is out of memory.
pub fn includes_of(alloc: Global, scripts: &[Vec<Edge>]) -> Result<Includes, AllocError> {
    let mut walk = Walk::begin(alloc, scripts)?;
    walk.follow_all()?;
    let (chain, ninth) = walk.chain()?;
    Ok(Includes {
        circles: walk.circles,
        chain,
        ninth,
    })
}
