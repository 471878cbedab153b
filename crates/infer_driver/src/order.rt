//! The order of a report.
ghost use Rattle.std.specs.Prelude.{◌≡◌, ◌↔◌, ℕ, IfOk};
ghost use Rattle.std.specs.List.{Contains};
ghost use Rattle.std.specs.List.Sorted.{IsStrictlySortedBy};
ghost use Rattle.std.specs.Ordering.{is_eq, nat_cmp};
ghost use Rattle.world_rules.specs.declared.finding.Finding.{Finding as FindingRow};
ghost use Rattle.world_rules.specs.Findings.{finding_order};
ghost use Rattle.world_rules.specs.Texts.{kind_number};

use place_ids::{Id, LineNo};
use sqlite_items::Items;
use std::cmp::Ordering;
use world_rules::{Finding, FindingKind};

/// The findings in the order of a report, each once.
pub(crate) fn findings_in_order(findings: Vec<Finding>) -> Items<Finding>
    ensures members { (f : FindingRow) → Contains result f ↔ Contains findings.items f }
    ensures rise { IsStrictlySortedBy finding_order result }
{
    let mut sorted = findings;
    sorted.sort_unstable_by(|one, other| compare(one, other));
    sorted.dedup_by(
        |one: &mut Finding, other: &mut Finding| -> bool
            ensures same { result ≡ is_eq (finding_order one.old other.old) }
            ensures one { one.new ≡ one.old }
            ensures other { other.new ≡ other.old }
        { compare(one, other) == Ordering::Equal },
    );
    Items::from_vec(sorted)
}

/// The lines in their order, each once.
pub(crate) fn lines_in_order(lines: Vec<LineNo>) -> Items<LineNo>
    ensures members { (line : ℕ) → Contains result line ↔ Contains lines.items line }
    ensures rise { IsStrictlySortedBy nat_cmp result }
{
    let mut sorted = lines;
    sorted.sort_unstable_by(|one, other| one.number().cmp(&other.number()));
    sorted.dedup_by(
        |one: &mut LineNo, other: &mut LineNo| -> bool
            ensures same { result ≡ is_eq (nat_cmp one.old other.old) }
            ensures one { one.new ≡ one.old }
            ensures other { other.new ≡ other.old }
        { one.number().cmp(&other.number()) == Ordering::Equal },
    );
    Items::from_vec(sorted)
}

// By line, then by the number of the kind, then by the bytes of the text.
fn compare(one: &Finding, other: &Finding) -> Ordering
    ensures { result ≡ finding_order one.now other.now }
{
    let lines = one.line.number().cmp(&other.line.number());
    let kinds = kind_number(one.kind).cmp(&kind_number(other.kind));
    let texts = one.text.bytes().cmp(other.text.bytes());
    lines.then(kinds).then(texts)
}

fn kind_number(kind: FindingKind) -> u8
    ensures { result ≡ kind_number kind }
{
    match kind {
        FindingKind::ImportError => 1,
        FindingKind::NameError => 2,
        FindingKind::AttributeError => 3,
        FindingKind::UnsupportedOperands => 4,
        FindingKind::NotIterable => 5,
        FindingKind::NotCallable => 6,
        FindingKind::WrongArgCount => 7,
        FindingKind::MissingParameter => 8,
        FindingKind::WrongKeywordArgs => 9,
        FindingKind::DuplicateKeyword => 10,
    }
}
