//! The commands of a script by their tokens.

ghost use Rattle.std.specs.Prelude.{◌≡◌, ◌<◌, ◌+◌, [], map, length, IfOk, OnOk};
ghost use Rattle.tool_findings.specs.Commands.{fronts_from, own_tokens, part_of};
ghost use Rattle.tool_findings.specs.Cutting.{IsCut};

use sieve_syntax::{Mark, Token, TokenKind};
use std::alloc::{AllocError, Global};

/// The front of a command: its name, arguments and tests, with the `;` or `{` that ends them.
#[derive(Clone, Copy)]
pub struct Front {
    /// Where it begins, an offset in octets.
    pub start: usize,
    /// Where it ends, an offset in octets.
    pub end: usize,
    /// The number of its first token, and the number after that of its last one.
    pub tokens: (usize, usize),
    /// How many blocks are open after it.
    pub depth: usize,
    /// Whether it ends with `{`.
    pub has_block: bool,
}

impl Front {
    /// The tokens of the command among those of its script.
    pub fn own<'a>(&self, tokens: &'a [Token]) -> &'a [Token]
        ensures { result.now ≡ own_tokens tokens.now self.now }
    {
        let until = &tokens[..self.tokens.1.min(tokens.len())];
        &until[self.tokens.0.min(until.len())..]
    }

    /// The tokens before the command among those of its script.
    pub fn before<'a>(&self, tokens: &'a [Token]) -> &'a [Token] {
        &tokens[..self.tokens.0.min(tokens.len())]
    }
}

/// What a token is to the front of a command.
#[derive(Clone, Copy)]
pub enum Part {
    Inside,
    /// The last one, after which a block begins or not.
    Last { has_block: bool },
    /// The end of a block, which is no part of a front.
    Closing,
}

/// What a token is to the front of a command.
fn part_of(kind: &TokenKind) -> Part
    ensures { result ≡ part_of kind.now }
{
    match kind {
        TokenKind::Mark(Mark::Semicolon) => Part::Last { has_block: false },
        TokenKind::Mark(Mark::OpenBrace) => Part::Last { has_block: true },
        TokenKind::Mark(Mark::CloseBrace) => Part::Closing,
        _ => Part::Inside,
    }
}

/// The fronts of the commands up to a token.
#[derive(Drop)]
pub struct Cutting {
    fronts: Vec<Front>,
    /// The number and the offset of the first token of a front that is not ended.
    first: Option<(usize, usize)>,
    /// How many blocks are open.
    depth: usize,
}

impl Cutting {
    /// Takes the token of a number, after those before it.
    fn take(&mut self, tokens: &[Token], number: usize) -> Result<(), AllocError>
        requires { number < length tokens.now }
        ensures { OnOk result (IsCut tokens.now number self.old
            → IsCut tokens.now (number + 1) self.new) }
    {
        let token = &tokens[number];
        let first = self.first.unwrap_or((number, token.start as usize));
        match part_of(&token.kind) {
            Part::Inside => {
                self.first = Some(first);
                Ok(())
            }
            Part::Closing => {
                self.depth = self.depth.saturating_sub(1);
                self.first = None;
                Ok(())
            }
            Part::Last { has_block } => {
                self.depth = self.depth.saturating_add(usize::from(has_block));
                self.first = None;
                self.fronts.push(Front {
                    start: first.1,
                    end: token.end as usize,
                    tokens: (first.0, number + 1),
                    depth: self.depth,
                    has_block,
                })?;
                Ok(())
            }
        }
    }
}

/// The fronts of a script's commands, in text order.
pub fn fronts_of(alloc: Global, tokens: &[Token]) -> Result<Vec<Front>, AllocError>
    ensures { IfOk result (λ v. map (own_tokens tokens.now) v.items ≡ fronts_from [] tokens.now) }
{
    let mut cutting = Cutting {
        fronts: Vec::new(alloc),
        first: None,
        depth: 0,
    };
    for number in 0..tokens.len() {
        cutting.take(tokens, number)?;
    }
    Ok(cutting.fronts)
}
