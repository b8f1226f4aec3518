// The losses that the words of a command line name.
ghost use Rattle.std.specs.Prelude.{◌≡◌, map, IfOk, option_map};
ghost use Rattle.cluster_losses.specs.Questions.{alone_named, scenario_of, at_colon, drain_named, is_together, kind_of, loss_named, named_of, question_named, together_named};

use std::alloc::{AllocError, Global};
use std::fmt;

/// The kind of a loss.
#[derive(Clone, Copy, Debug)]
pub enum Kind {
    Rack,
    Node,
    Storage,
    /// A node that is to be decommissioned.
    Drain,
}

impl fmt::Display for Kind {
    ghost use Rattle.std.specs.Prelude.{Some};
    ghost use Rattle.cluster_losses.specs.Questions.{kind_text};

    ghost output = { λ kind. Some (kind_text kind) };

    fn fmt<W: fmt::Write>(&self, f: &mut fmt::Formatter<W>) -> fmt::Result {
        f.write_str(match self {
            Kind::Rack => "rack",
            Kind::Node | Kind::Drain => "node",
            Kind::Storage => "storage",
        })
    }
}

/// A loss, by its kind and its name.
#[derive(Clone, Copy)]
pub struct Loss<'a> {
    pub kind: Kind,
    pub name: &'a str,
}

/// The question of a command line.
#[derive(Drop)]
pub enum Question<'a> {
    /// What if all of these are lost?
    Losses(Vec<Loss<'a>>),
    /// What if each rack alone is lost?
    EachRack,
    /// What if each node alone is lost?
    EachNode,
}

impl Question<'_> {
    /// Whether all losses come at once.
    pub fn is_one(&self) -> bool
        ensures { result ≡ is_together (scenario_of self.now) }
    {
        matches!(self, Question::Losses(_))
    }
}

/// The question of these words: the values of `--lose` and those of `--drain`. `None` if there is
/// no word, a word is unknown, or `each-rack` or `each-node` is not alone.
pub fn parse_question<'a>(
    alloc: Global,
    lose: &[&'a str],
    drain: &[&'a str],
) -> Result<Option<Question<'a>>, AllocError>
    ensures { IfOk result (λ o. option_map scenario_of o
        ≡ question_named (map (λ w. w.now) lose.now) (map (λ w. w.now) drain.now)) }
{
    if lose.len() > 1 || !drain.is_empty() {
        return parse_losses(alloc, lose, drain);
    }
    match lose.first() {
        Some(word) => parse_single(alloc, *word),
        None => Ok(None),
    }
}

/// The question of one value of `--lose` alone.
fn parse_single<'a>(alloc: Global, word: &'a str) -> Result<Option<Question<'a>>, AllocError>
    ensures { IfOk result (λ o. option_map scenario_of o ≡ alone_named word.entry.now) }
{
    match word {
        "each-rack" => Ok(Some(Question::EachRack)),
        "each-node" => Ok(Some(Question::EachNode)),
        _ => parse_losses(alloc, &[word], &[]),
    }
}

fn parse_losses<'a>(
    alloc: Global,
    lose: &[&'a str],
    drain: &[&'a str],
) -> Result<Option<Question<'a>>, AllocError>
    ensures { IfOk result (λ o. option_map scenario_of o
        ≡ together_named (map (λ w. w.now) lose.now) (map (λ w. w.now) drain.now)) }
{
    let mut losses = parse_drains(alloc, drain)?;
    for word in lose {
        let Some(loss) = parse_loss(*word) else {
            return Ok(None);
        };
        losses.push(loss)?;
    }
    Ok(Some(Question::Losses(losses)))
}

/// A loss for each node of `--drain`.
fn parse_drains<'a>(alloc: Global, drain: &[&'a str]) -> Result<Vec<Loss<'a>>, AllocError>
    ensures { IfOk result (λ v. map named_of v.items
        ≡ map drain_named (map (λ w. w.now) drain.now)) }
{
    let mut losses = Vec::new(alloc);
    for name in drain {
        losses.push(Loss {
            kind: Kind::Drain,
            name: *name,
        })?;
    }
    Ok(losses)
}

/// The loss that `rack:NAME`, `node:HOST` or `storage:ID` names.
fn parse_loss(word: &str) -> Option<Loss<'_>>
    ensures { option_map named_of result ≡ loss_named word.now }
{
    let (kind, name) = at_colon(word)?;
    let kind = kind_of(kind)?;
    Some(Loss { kind, name })
}

/// The parts of a text before and after its first colon.
fn at_colon(text: &str) -> Option<(&str, &str)>
    ensures { option_map (λ p. (p.0.now, p.1.now)) result ≡ at_colon text.now }
{
    text.split_once(':')
}

fn kind_of(text: &str) -> Option<Kind>
    ensures { result ≡ kind_of text.now }
{
    match text {
        "rack" => Some(Kind::Rack),
        "node" => Some(Kind::Node),
        "storage" => Some(Kind::Storage),
        _ => None,
    }
}
