// Where a line stands.

ghost use Rattle.std.specs.Prelude.{◌≡◌};
ghost use Rattle.cert_grammar.specs.Places.{start, after, counted, may_stand, part_behind, least, is_one_too_many, is_ended, HasRoom};

use crate::grammar::{Part, follows, is_due};
use crate::items::{Claim, Item};
use certificate_law::{MOST_BRANCHES, MOST_SQUARES};
use mps_tokens::CertificateWord;

/// Where a line stands, by the words of the lines before it, and what they leave for it.
#[derive(Clone, Copy)]
pub struct Place {
    pub claim: Claim,
    pub part: Part,
    /// How many subtrees are wanted.
    pub wanted: u64,
    /// The first place that the next entry of the list may have.
    pub next: u64,
    /// How many SQUARE lines stand before it.
    pub squares: u64,
    /// How many BRANCH lines stand before it.
    pub branches: u64,
}

impl Place {
    /// The place of the line behind the first.
    pub fn start(claim: Claim) -> Place
        ensures { result ≡ start claim }
    {
        let (part, wanted) = match claim {
            Claim::Optimal => (Part::Value, 1),
            Claim::Infeasible => (Part::Nodes, 1),
            Claim::Unbounded => (Part::Points, 0),
            Claim::NotConvex => (Part::Directions, 0),
        };
        Place {
            claim,
            part,
            wanted,
            next: 0,
            squares: 0,
            branches: 0,
        }
    }

    /// Whether no line may stand here.
    pub fn is_ended(self) -> bool
        ensures { result ≡ is_ended self.part }
    {
        matches!(self.part, Part::Ended)
    }

    /// Whether a line with this word may stand here.
    pub fn may_stand(self, word: CertificateWord) -> bool
        ensures { result ≡ may_stand self word }
    {
        follows(self.claim, self.part, word).is_some() && is_due(word, self.wanted)
    }

    /// The least place that an entry with this word may have.
    pub fn least(self, word: CertificateWord) -> u64
        ensures { result ≡ least self word }
    {
        match (self.part, word) {
            (Part::Points, CertificateWord::Ray)
            | (Part::LeafPoint, CertificateWord::Y)
            | (_, CertificateWord::Branch) => 0,
            _ => self.next,
        }
    }

    /// Whether a line with this word would be one too many.
    pub fn is_one_too_many(self, word: CertificateWord) -> bool
        ensures { result ≡ is_one_too_many self word }
    {
        match word {
            CertificateWord::Square => self.squares >= MOST_SQUARES as u64,
            CertificateWord::Branch => self.branches >= MOST_BRANCHES as u64,
            _ => false,
        }
    }

    /// The part behind a line with this word.
    fn part_behind(self, word: CertificateWord) -> Part
        ensures { result ≡ part_behind self word }
    {
        match follows(self.claim, self.part, word) {
            Some(part) => part,
            None => self.part,
        }
    }

    /// With a line counted. There is room in the counts.
    fn counted(self, item: &Item) -> Place
        requires { HasRoom self }
        ensures { result ≡ counted item.now self }
    {
        match item {
            Item::Square(_) => {
                let squares = self.squares + 1;
                Place { squares, ..self }
            }
            Item::Branch(_, _) => {
                let wanted = self.wanted + 1;
                let branches = self.branches + 1;
                Place {
                    wanted,
                    branches,
                    ..self
                }
            }
            Item::Bound | Item::Farkas | Item::Cross(_) => {
                let wanted = self.wanted.saturating_sub(1);
                Place { wanted, ..self }
            }
            _ => self,
        }
    }

    /// The place behind a line. There is room in the counts.
    pub fn after(self, item: &Item) -> Place
        requires { HasRoom self }
        ensures { result ≡ after self item.now }
    {
        let part = self.part_behind(item.word());
        let next = item.next_place();
        Place {
            part,
            next,
            ..self.counted(item)
        }
    }
}
