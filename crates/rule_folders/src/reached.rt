//! The scripts that a program reaches by its includes.

ghost use Rattle.std.specs.Prelude.{◌≡◌, ◌∷◌, [], ◌++◌, ℕ, Bool, List, Option, Some, None, length, IfOk, OnOk, OnErr, IfSome, map, option_map, is_some, string_bytes};
ghost use Rattle.std.specs.List.{Contains, slice_get};
ghost use Rattle.rule_folders.specs.Includes.{include_of};
ghost use Rattle.tool_findings.specs.Commands.{Include};
ghost use Rattle.rule_folders.specs.Reading.{Entry, Makes, Read, answer_of, entry_of, number_at, octets};
ghost use Rattle.rule_folders.specs.Reached.{AreEdges, Follows, HasInclude, IsFollowed};
ghost use Rattle.rule_folders.specs.Steps.{Goes, IsEdgeOf, IsNumberOf, with_edge};

use crate::includes::{Included, includes_in};
use std::alloc::{AllocError, Global};
use std::collections::BTreeMap;
use std::marker::Model;
use tool_findings::Edge;

/// What a path has.
#[derive(Drop)]
pub enum Found {
    /// No script.
    Nothing,
    /// A script of more octets than are read.
    TooLong,
    Text(Vec<u8>),
}

impl Found {
    /// The text of a script, which is none where it has more octets than are read; none where there is no script.
    fn text(self) -> Option<Option<Vec<u8>>>
        ensures { option_map (option_map (λ v. v.items)) result ≡ answer_of self }
    {
        match self {
            Found::Nothing => None,
            Found::TooLong => Some(None),
            Found::Text(text) => Some(Some(text)),
        }
    }
}

/// Where scripts are.
pub trait Scripts {
    /// Why a script cannot be had.
    type Fault: Drop;

    /// The path of a script by its name, and by whether it is one for all officers; none where it is not known.
    ghost place: { Self → List ℕ → Bool → Option (List ℕ) };

    /// These paths have been read, in this order, with these answers.
    ghost made: { Self → List Read → Type 0 };

    /// That there is no memory.
    fn no_memory(&self) -> Self::Fault;

    /// The path of a script that is included; none where it is not known.
    fn path_of(&self, alloc: Global, included: &Included) -> Result<Option<String>, AllocError>
        ensures { IfOk result (λ path. option_map string_bytes path
            ≡ place self.now included.now.name.items included.now.is_global) };

    /// What there is at the path of a script that is included.
    fn read(&mut self, path: &str, is_global: bool) -> Result<Found, Self::Fault>
        ensures made { IfOk result (λ found. Makes made self.old self.new
            (record { path = path.now; is_global = is_global; answer = answer_of found } ∷ [])) }
        ensures kept { (name : List ℕ) (g : Bool) → place self.new name g ≡ place self.old name g };
}

/// A script that is reached.
#[derive(Drop)]
pub struct Script {
    pub path: String,
    /// The name by which it was included first; that of the program.
    pub name: Vec<u8>,
    /// Whether it is one that every officer can include.
    pub is_global: bool,
    /// None where it has more octets than are read.
    pub text: Option<Vec<u8>>,
}

impl Script {
    /// Its text, which is empty where it has more octets than are read.
    pub fn octets(&self) -> &[u8]
        ensures { result.now ≡ octets (entry_of self.now) }
    {
        match &self.text {
            Some(text) => text.as_slice(),
            None => &[],
        }
    }
}

/// The scripts that a program can reach, itself first. Each is named by its number, counted from 0.
#[derive(Drop)]
pub struct Reached {
    alloc: Global,
    scripts: Vec<Script>,
    /// The number of the script at each path.
    numbers: BTreeMap<String, usize>,
}

impl Model for Reached {
    ghost use Rattle.std.specs.Prelude.{◌≡◌, ℕ, List, map};
    ghost use Rattle.std.specs.BTreeMap.{get_by_text};
    ghost use Rattle.rule_folders.specs.Reading.{Entry, entry_of, number_at};

    ghost Value = { List Entry };

    ghost view = { λ r. map entry_of r.scripts.items };

    ghost invariant = { λ r. (path : List ℕ)
        → get_by_text r.numbers path ≡ number_at path (map entry_of r.scripts.items) };
}

/// Adds an edge, if there is one.
fn add_edge(edges: &mut Vec<Edge>, edge: Option<Edge>) -> Result<(), AllocError>
    ensures { OnOk result (edges.new.items ≡ with_edge edges.old.items edge) }
{
    match edge {
        Some(edge) => Ok(edges.push(edge)?),
        None => Ok(()),
    }
}

impl Reached {
    /// A program alone.
    fn alone(alloc: Global, program: Script) -> Result<Reached, AllocError>
        ensures { IfOk result (λ r. r ≡ entry_of program ∷ []) }
    {
        let mut reached = Reached {
            alloc,
            scripts: Vec::new(alloc),
            numbers: BTreeMap::new(alloc),
        };
        reached.add(program)?;
        Ok(reached)
    }

    /// The scripts, by their numbers.
    pub fn scripts(&self) -> &[Script]
        ensures { map entry_of result.now ≡ self.now }
    {
        self.scripts.as_slice()
    }

    /// The scripts, by their numbers.
    pub fn into_scripts(self) -> Vec<Script>
        ensures { map entry_of result.items ≡ self }
    {
        self.scripts
    }

    /// Whether a path is that of a script that is reached.
    pub fn has(&self, path: &str) -> bool
        ensures { result ≡ is_some (number_at path.now self.now) }
    {
        self.number_at(path).is_some()
    }

    /// The path of a script, by its number.
    pub fn path(&self, script: usize) -> &str
        ensures { IfSome (slice_get self.now script) (λ e. result.now ≡ e.path) }
    {
        match self.scripts.get(script) {
            Some(script) => script.path.as_str(),
            None => "",
        }
    }

    /// The text of a script, by its number.
    pub fn text(&self, script: usize) -> &[u8]
        ensures { IfSome (slice_get self.now script) (λ e. result.now ≡ octets e) }
    {
        match self.scripts.get(script) {
            Some(script) => script.octets(),
            None => &[],
        }
    }

    /// Adds a script whose path is new.
    fn add(&mut self, script: Script) -> Result<(), AllocError>
        requires { number_at (string_bytes script.path) self.old ≡ None }
        ensures { OnOk result (self.new ≡ self.old ++ entry_of script ∷ []) }
    {
        let number = self.scripts.len();
        let path = script.path.clone()?;
        self.scripts.push(script)?;
        match self.numbers.insert(path, number) {
            Ok(_) => Ok(()),
            Err(_) => {
                let _ = self.scripts.pop();
                Err(AllocError)
            }
        }
    }

    /// The number of the script at a path; none where it was not reached.
    fn number_at(&self, path: &str) -> Option<usize>
        ensures { result ≡ number_at path.now self.now }
    {
        self.numbers.get(path).copied()
    }

    /// The number of scripts.
    fn len(&self) -> usize
        ensures { result ≡ length self.now }
    {
        self.scripts.len()
    }

    /// Adds the script that is included at a path, which is new.
    fn add_included(
        &mut self,
        path: String,
        included: &Included,
        text: Option<Vec<u8>>,
    ) -> Result<usize, AllocError>
        requires { number_at (string_bytes path) self.old ≡ None }
        ensures number { IfOk result (λ n. n ≡ length self.old) }
        ensures added { OnOk result (self.new ≡ self.old ++ record {
          path = string_bytes path;
          name = included.now.name.items;
          is_global = included.now.is_global;
          text = option_map (λ v. v.items) text;
        } ∷ []) }
    {
        let number = self.len();
        let name = included.name.clone()?;
        self.add(Script {
            path,
            name,
            is_global: included.is_global,
            text,
        })?;
        Ok(number)
    }

    /// The number of the script that is included at a path, which is read where it is new; none where there is none.
    fn number_of<S: Scripts>(
        &mut self,
        scripts: &mut S,
        path: String,
        included: &Included,
    ) -> Result<Option<usize>, S::Fault>
        requires { S.place scripts.old included.now.name.items included.now.is_global
            ≡ Some (string_bytes path) }
        ensures { IfOk result (λ number. (reads : List Read)
            × IsNumberOf (string_bytes path) included.now.is_global reads self.new number
            × Goes S.made S.place scripts.old scripts.new self.old self.new
            (λ (s : Entry). HasInclude (octets s) (include_of included.now)) reads) }
    {
        if let Some(number) = self.number_at(path.as_str()) {
            return Ok(Some(number));
        }
        let found = scripts.read(path.as_str(), included.is_global)?;
        let Some(text) = found.text() else {
            return Ok(None);
        };
        match self.add_included(path, included, text) {
            Ok(number) => Ok(Some(number)),
            Err(AllocError) => Err(scripts.no_memory()),
        }
    }

    /// The edge that an include is; none where its script is not there.
    fn edge_of<S: Scripts>(
        &mut self,
        scripts: &mut S,
        included: &Included,
    ) -> Result<Option<Edge>, S::Fault>
        ensures { IfOk result (λ edge. (reads : List Read)
            × IsEdgeOf (S.place scripts.old) reads self.new (include_of included.now) edge
            × Goes S.made S.place scripts.old scripts.new self.old self.new
            (λ (s : Entry). HasInclude (octets s) (include_of included.now)) reads) }
    {
        let Ok(path) = scripts.path_of(self.alloc, included) else {
            return Err(scripts.no_memory());
        };
        let Some(path) = path else {
            return Ok(None);
        };
        let Some(to) = self.number_of(scripts, path, included)? else {
            return Ok(None);
        };
        Ok(Some(Edge {
            to,
            at: included.at,
            is_once: included.is_once,
        }))
    }

    /// The edges that includes of a script are.
    fn edges_among<S: Scripts>(
        &mut self,
        scripts: &mut S,
        includes: &[Included],
    ) -> Result<Vec<Edge>, S::Fault>
        ensures { IfOk result (λ edges. (reads : List Read)
            × AreEdges (S.place scripts.old) reads self.new
            (map include_of includes.now) edges.items
            × Goes S.made S.place scripts.old scripts.new self.old self.new
            (λ (s : Entry). (i : Include) → Contains (map include_of includes.now) i
            → HasInclude (octets s) i) reads) }
    {
        let mut edges = Vec::new(self.alloc);
        for included in includes {
            let edge = self.edge_of(scripts, included)?;
            let Ok(()) = add_edge(&mut edges, edge) else {
                return Err(scripts.no_memory());
            };
        }
        Ok(edges)
    }

    /// The edges of a script, by its number.
    fn edges_of<S: Scripts>(
        &mut self,
        scripts: &mut S,
        script: usize,
    ) -> Result<Vec<Edge>, S::Fault>
        ensures { IfOk result (λ edges. (reads : List Read)
            × ((s : Entry) → slice_get self.old script ≡ Some s
            → IsFollowed (S.place scripts.old) reads self.new s edges.items)
            × Goes S.made S.place scripts.old scripts.new self.old self.new
            (λ (s : Entry). slice_get self.old script ≡ Some s) reads) }
    {
        let Ok(includes) = includes_in(self.alloc, self.text(script)) else {
            return Err(scripts.no_memory());
        };
        self.edges_among(scripts, includes.as_slice())
    }

    /// The scripts that a program reaches, and the includes of each of these. All of them are read, each once, and nothing
    /// else is.
    pub fn follow<S: Scripts>(
        alloc: Global,
        program: Script,
        scripts: &mut S,
    ) -> Result<(Reached, Vec<Vec<Edge>>), S::Fault>
        ensures { IfOk result (λ walk. (reads : List Read)
            × Makes S.made scripts.old scripts.new reads
            × Follows (S.place scripts.old) (entry_of program) reads walk.0 walk.1.items) }
    {
        let Ok(mut reached) = Reached::alone(alloc, program) else {
            return Err(scripts.no_memory());
        };
        let mut edges = Vec::new(alloc);
        while edges.len() < reached.len() {
            let of_script = reached.edges_of(scripts, edges.len())?;
            let Ok(()) = edges.push(of_script) else {
                return Err(scripts.no_memory());
            };
        }
        Ok((reached, edges))
    }
}
