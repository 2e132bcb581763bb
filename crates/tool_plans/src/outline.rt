//! The keys of a plan file, each with its place.

use std::alloc::{AllocError, Global};
use toml_parser::text::{skip_blank, skip_ws};
use toml_parser::{Key as Dotted, ParseError, Scalar, dotted_key, quoted, starts_string, unquoted};

/// The table that a key is of.
#[derive(Clone, Copy, PartialEq, Eq)]
pub(crate) enum Owner {
    /// The table of the file.
    File,
    /// The class of this number, counted from 0.
    Class(usize),
    /// A table that no plan has: the one of the header of this number, counted from 0.
    Other(usize),
}

/// A value, as far as a plan has such.
#[derive(Drop)]
pub(crate) enum Written {
    Text(String),
    Truth(bool),
    /// An array of tables.
    Tables,
    Other,
}

/// A key with its value.
#[derive(Drop)]
pub(crate) struct Key {
    pub(crate) owner: Owner,
    /// The parts of the key, with dots between them.
    pub(crate) name: String,
    /// Where it begins, an offset in octets.
    pub(crate) at: usize,
    /// Where its value begins, an offset in octets.
    pub(crate) value_at: usize,
    pub(crate) value: Written,
}

/// A header of a table that no plan has.
#[derive(Drop)]
pub(crate) struct Header {
    pub(crate) name: String,
    pub(crate) at: usize,
    /// Whether it is one of an array of tables.
    pub(crate) is_array: bool,
}

/// What a plan file has, in the order of its text.
pub(crate) struct Outline {
    pub(crate) keys: Vec<Key>,
    /// Where each class begins, an offset in octets.
    pub(crate) classes: Vec<usize>,
    pub(crate) others: Vec<Header>,
}

impl Drop for Outline {
    fn drop(self) {
        let Outline {
            keys: _,
            classes: _,
            others: _,
        } = self;
    }
}

/// Reads an outline from the front of a text.
#[derive(Drop)]
struct Reader<'t> {
    alloc: Global,
    text: &'t str,
    rest: &'t str,
    /// The table of the keys that come next.
    owner: Owner,
    outline: Outline,
}

impl Reader<'_> {
    /// The offset of what comes next.
    fn at(&self) -> usize {
        self.text.len().saturating_sub(self.rest.len())
    }

    /// Takes a mark, if it comes next.
    fn take(&mut self, mark: &str) -> bool {
        match self.rest.strip_prefix(mark) {
            Some(rest) => {
                self.rest = rest;
                true
            }
            None => false,
        }
    }

    /// Takes spaces, ends of lines and comments.
    fn take_blank(&mut self) {
        self.rest = skip_blank(self.rest, true);
    }

    /// Takes a key.
    fn take_key(&mut self) -> Result<String, ParseError> {
        let (key, rest) = dotted_key(self.alloc, skip_ws(self.rest))?;
        self.rest = rest;
        joined(self.alloc, &key)
    }

    /// Takes an array or an inline table.
    fn take_nested(&mut self) -> Result<(), ParseError> {
        let mut depth: usize = 0;
        for _ in 0..self.rest.len() {
            self.take_blank();
            if starts_string(self.rest) {
                let (_, rest) = quoted(self.alloc, self.rest)?;
                self.rest = rest;
                continue;
            }
            match self.take_character() {
                Some('[' | '{') => depth = depth.saturating_add(1),
                Some(']' | '}') if depth <= 1 => return Ok(()),
                Some(']' | '}') => depth = depth.saturating_sub(1),
                Some(_) => {}
                None => return Ok(()),
            }
        }
        Ok(())
    }

    /// Takes a character.
    fn take_character(&mut self) -> Option<char> {
        let mut characters = self.rest.chars();
        let taken = characters.next();
        self.rest = characters.as_str();
        taken
    }

    /// Takes a value that is no list of classes.
    fn take_value(&mut self) -> Result<Written, ParseError> {
        if starts_string(self.rest) {
            let (text, rest) = quoted(self.alloc, self.rest)?;
            self.rest = rest;
            return Ok(Written::Text(text));
        }
        if self.rest.starts_with('[') || self.rest.starts_with('{') {
            self.take_nested()?;
            return Ok(Written::Other);
        }
        let (scalar, rest) = unquoted(self.alloc, self.rest)?;
        self.rest = rest;
        Ok(match scalar {
            Scalar::Boolean(truth) => Written::Truth(truth),
            _ => Written::Other,
        })
    }

    /// Takes the `=` after a key, and the spaces around it.
    fn take_equals(&mut self) {
        self.rest = skip_ws(self.rest);
        let _is_there = self.take("=");
        self.rest = skip_ws(self.rest);
    }

    /// Takes a key of a class, or of a table that no plan has, with its value.
    fn take_pair(&mut self, owner: Owner) -> Result<(), ParseError> {
        let at = self.at();
        let name = self.take_key()?;
        self.take_equals();
        let value_at = self.at();
        let value = self.take_value()?;
        self.outline.keys.push(Key {
            owner,
            name,
            at,
            value_at,
            value,
        })?;
        Ok(())
    }

    /// Begins a class.
    fn begin_class(&mut self, at: usize) -> Result<Owner, ParseError> {
        let number = self.outline.classes.len();
        self.outline.classes.push(at)?;
        Ok(Owner::Class(number))
    }

    /// Takes a class in braces.
    fn take_class(&mut self) -> Result<(), ParseError> {
        let at = self.at();
        let _is_there = self.take("{");
        let owner = self.begin_class(at)?;
        for _ in 0..self.rest.len() {
            self.take_blank();
            if self.take("}") {
                break;
            }
            if !self.take(",") {
                self.take_pair(owner)?;
            }
        }
        Ok(())
    }

    /// Takes the classes in brackets.
    fn take_classes(&mut self) -> Result<Written, ParseError> {
        let mut written = Written::Tables;
        let _is_there = self.take("[");
        for _ in 0..self.rest.len() {
            self.take_blank();
            if self.take("]") {
                break;
            }
            if self.rest.starts_with('{') {
                self.take_class()?;
            } else if !self.take(",") {
                let _value = self.take_value()?;
                written = Written::Other;
            }
        }
        Ok(written)
    }

    /// Takes a key of the file with its value.
    fn take_file_pair(&mut self) -> Result<(), ParseError> {
        let at = self.at();
        let name = self.take_key()?;
        self.take_equals();
        let value_at = self.at();
        let value = if name.as_str() == "class" && self.rest.starts_with('[') {
            self.take_classes()?
        } else {
            self.take_value()?
        };
        self.outline.keys.push(Key {
            owner: Owner::File,
            name,
            at,
            value_at,
            value,
        })?;
        Ok(())
    }

    /// Takes a header after its first bracket or brackets. The header of a class has two.
    fn take_header(&mut self, at: usize, closing: &str) -> Result<(), ParseError> {
        let name = self.take_key()?;
        let _is_there = self.take(closing);
        if closing == "]]" && name.as_str() == "class" {
            self.owner = self.begin_class(at)?;
        } else {
            self.owner = Owner::Other(self.outline.others.len());
            let is_array = closing == "]]";
            self.outline.others.push(Header { name, at, is_array })?;
        }
        Ok(())
    }

    /// Takes the next header, or key with its value.
    fn take_statement(&mut self) -> Result<(), ParseError> {
        let at = self.at();
        if self.take("[[") {
            return self.take_header(at, "]]");
        }
        if self.take("[") {
            return self.take_header(at, "]");
        }
        match self.owner {
            Owner::File => self.take_file_pair(),
            owner => self.take_pair(owner),
        }
    }

    /// Takes all that the text has.
    fn take_all(&mut self) -> Result<(), ParseError> {
        let _is_there = self.take("\u{FEFF}");
        for _ in 0..self.text.len() {
            self.take_blank();
            if self.rest.is_empty() {
                break;
            }
            self.take_statement()?;
        }
        Ok(())
    }
}

/// The parts of a key, with dots between them.
fn joined(alloc: Global, key: &Dotted) -> Result<String, ParseError> {
    let mut name = String::new(alloc);
    for part in key.path.as_slice() {
        name.push_str(part.as_str())?;
        name.push('.')?;
    }
    name.push_str(key.last.as_str())?;
    Ok(name)
}

/// The outline of a text that is TOML. The only error is out of memory.
pub(crate) fn outline_of(alloc: Global, text: &str) -> Result<Outline, AllocError> {
    let mut reader = Reader {
        alloc,
        text,
        rest: text,
        owner: Owner::File,
        outline: Outline {
            keys: Vec::new(alloc),
            classes: Vec::new(alloc),
            others: Vec::new(alloc),
        },
    };
    match reader.take_all() {
        Err(ParseError::OutOfMemory) => Err(AllocError),
        _ => Ok(reader.outline),
    }
}
