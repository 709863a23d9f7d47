//! Examples of lighttpd's documentation of mod_rewrite, and how a rewriting ends.
ghost use Rattle.std.specs.Prelude.{◌≡◌, ◌<◌, IfOk, Some, option_map, unwrap_or};
ghost use Rattle.conditions.specs.Groups.{IsPatternOf};
ghost use Rattle.rewrite.specs.Rules.{rule_of};

use crate::{Choices, Next, Rewritten, Rules, next_of, rewrite};
use conditions::{Groups, Made, Matchers, PatternMaker, RegexMaker, Steps};
use conf_value::{Pair, Value};
use http_target::{Target, TargetRefusal, read_target};
use lt_bytes::{NoMemory, Text};
use regex::bytes::Regex;
use std::alloc::Global;
use std::marker::Brand;
use std::sync::ledger::{Blank, Ledger};
use std::test::Fail;

/// Lists whose block has a pattern as its condition, on the host or, where there is none, on the path. Pattern 0 is
/// the condition's, and the rules' follow.
#[derive(Clone, Copy)]
struct Ruled<'a> {
    once: &'a [Pair],
    repeat: &'a [Pair],
    condition: &'a [u8],
    host: Option<&'a [u8]>,
}

impl Choices for Ruled<'_> {
    ghost use Rattle.std.specs.Prelude.{◌≡◌, [], Some, true, option_map, unwrap_or, slice_get};
    ghost use Rattle.conditions.specs.Groups.{groups_by};
    ghost use Rattle.rewrite.specs.Rules.{AreNumbered};

    type Conds = ();

    ghost lists = { λ a target. record {
      once = record { rules = a.once.now; outer = unwrap_or (groups_by a.condition.now (unwrap_or (option_map (λ host. host.now) a.host) target.path)) [] };
      repeat = record { rules = a.repeat.now; outer = unwrap_or (groups_by a.condition.now (unwrap_or (option_map (λ host. host.now) a.host) target.path)) [] };
    } };

    ghost right = { λ a target conds. Unit {0} };

    ghost asked = { λ conds. 0 };

    ghost most = { λ a. 0 };

    ghost belongs = { λ a patterns. (slice_get patterns 0 ≡ Some (a.condition.now, true)) × (AreNumbered patterns 1 a.once.now × AreNumbered patterns 1 a.repeat.now) };

    fn next<L: Ledger>(
        &self,
        alloc: Global,
        target: &Target,
        conds: &mut (),
        matchers: &mut Matchers<'_>,
        steps: &mut Steps<L>,
    ) -> Result<Next, NoMemory> {
        let _ = conds;
        let _ = steps;
        let mut outer = Groups::new(alloc);
        matchers.find(0, subject(self.host, target.path.bytes()), &mut outer)?;
        let once = Rules {
            first_pattern: 1,
            pairs: self.once,
            outer: &outer,
        };
        let repeat = Rules {
            first_pattern: 1,
            pairs: self.repeat,
            outer: &outer,
        };
        next_of(alloc, matchers, once, repeat, target.raw.bytes())
    }

    fn set_target(&self, conds: &mut ()) {
        let _ = conds;
    }
}

/// The host, or the path where there is no host.
fn subject<'a>(host: Option<&'a [u8]>, path: &'a [u8]) -> &'a [u8]
    ensures { result.now ≡ unwrap_or (option_map (λ host. host.now) host.entry) path.now }
{
    match host {
        Some(host) => host,
        None => path,
    }
}

fn rule(alloc: Global, pattern: &[u8], replacement: &[u8]) -> Result<Pair, NoMemory>
    ensures { IfOk result (λ pair. rule_of pair ≡ Some (record { pattern = pattern.now; replacement = replacement.now })) }
{
    Ok(Pair {
        key: Some(Text::from_bytes(alloc, pattern)?),
        value: Value::Text(Text::from_bytes(alloc, replacement)?),
    })
}

/// A rule in a block, of the once list or of the repeat list, and the target that was sent.
#[derive(Clone, Copy)]
struct Case<'a> {
    condition: &'a [u8],
    host: Option<&'a [u8]>,
    pattern: &'a [u8],
    replacement: &'a [u8],
    repeats: bool,
    sent: &'a [u8],
}

fn target(alloc: Global, sent: &[u8]) -> Result<Target, NoMemory> {
    match read_target(alloc, sent) {
        Ok(target) => Ok(target),
        Err(TargetRefusal::BadTarget) => Err(NoMemory),
        Err(TargetRefusal::NoMemory) => Err(NoMemory),
    }
}

/// How the rewriting ends, by a count of its own, and the target then.
fn ended<L: Ledger>(
    blank: Blank,
    alloc: Global,
    case: &Case<'_>,
    condition: &Regex,
    pattern: &Regex,
) -> Result<(Rewritten, Text), NoMemory>
    requires name { blank.name ≡ L.name }
    requires parts { blank.parts ≡ L.parts }
    requires some { 0 < L.parts }
    requires condition { IsPatternOf case.now.condition.now condition.now }
    requires pattern { IsPatternOf case.now.pattern.now pattern.now }
{
    let mut steps: Steps<L> = Steps::new(blank);
    let mut matchers = Matchers::new(alloc);
    let _ = matchers.add(condition, true)?;
    let _ = matchers.add(pattern, true)?;
    let pairs = [rule(alloc, case.pattern, case.replacement)?];
    let mut target = target(alloc, case.sent)?;
    let choices = Ruled {
        once: if case.repeats { &[] } else { &pairs },
        repeat: if case.repeats { &pairs } else { &[] },
        condition: case.condition,
        host: case.host,
    };
    let answer = rewrite(
        alloc,
        &choices,
        &mut target,
        &mut (),
        &mut matchers,
        &mut steps,
    )?;
    Ok((answer, target.raw))
}

/// How the rewriting of a case ends, and the target then.
fn end(alloc: Global, case: &Case<'_>) -> Result<(Rewritten, Text), NoMemory> {
    let mut maker = RegexMaker::new(alloc);
    let Made::Pattern(condition) = maker.make(case.condition) else {
        return Err(NoMemory);
    };
    let Made::Pattern(pattern) = maker.make(case.pattern) else {
        return Err(NoMemory);
    };
    ended::<Brand>(Blank::new(1), alloc, case, &condition, &pattern)
}

#[test]
fn the_groups_of_the_rule_stand_in_the_target(rt: HostRuntime) -> Result<(), Fail> {
    let case = Case {
        condition: b"",
        host: Some(b"h"),
        pattern: b"^/id/([0-9]+)$",
        replacement: b"/index.php?id=$1",
        repeats: false,
        sent: b"/id/12",
    };
    let (answer, target) = end(rt.alloc(), &case)?;
    assert_eq!(rt; answer, Rewritten::New);
    assert_eq!(rt; target.bytes(), b"/index.php?id=12".as_slice());
    let other = Case {
        sent: b"/id/x",
        ..case
    };
    let (answer, target) = end(rt.alloc(), &other)?;
    assert_eq!(rt; answer, Rewritten::Same);
    assert_eq!(rt; target.bytes(), b"/id/x".as_slice());
    Ok(())
}

#[test]
fn the_groups_of_the_condition_stand_in_the_target(rt: HostRuntime) -> Result<(), Fail> {
    let case = Case {
        condition: b"^(.*)\\.example\\.org$",
        host: Some(b"any.example.org"),
        pattern: b"^/(.*)",
        replacement: b"/%1/$1",
        repeats: false,
        sent: b"/url/?q",
    };
    let (answer, target) = end(rt.alloc(), &case)?;
    assert_eq!(rt; answer, Rewritten::New);
    assert_eq!(rt; target.bytes(), b"/any/url/?q".as_slice());
    Ok(())
}

#[test]
fn the_condition_is_tried_on_each_new_target(rt: HostRuntime) -> Result<(), Fail> {
    let case = Case {
        condition: b"^/(.)",
        host: None,
        pattern: b"^/.(.*);(.*)$",
        replacement: b"/$1$2%1",
        repeats: true,
        sent: b"/ab;;",
    };
    let (answer, target) = end(rt.alloc(), &case)?;
    assert_eq!(rt; answer, Rewritten::New);
    assert_eq!(rt; target.bytes(), b"/ab".as_slice());
    Ok(())
}

#[test]
fn a_rule_that_repeats_ends_at_the_101st_target(rt: HostRuntime) -> Result<(), Fail> {
    let case = Case {
        condition: b"",
        host: Some(b"h"),
        pattern: b"^/a",
        replacement: b"/a",
        repeats: true,
        sent: b"/a.txt",
    };
    let (answer, target) = end(rt.alloc(), &case)?;
    assert_eq!(rt; answer, Rewritten::Loop);
    assert_eq!(rt; target.bytes(), b"/a".as_slice());
    let blank = Case {
        replacement: b"",
        ..case
    };
    let (answer, target) = end(rt.alloc(), &blank)?;
    assert_eq!(rt; answer, Rewritten::Same);
    assert_eq!(rt; target.bytes(), b"/a.txt".as_slice());
    let bad = Case {
        replacement: b"a",
        ..case
    };
    let (answer, _target) = end(rt.alloc(), &bad)?;
    assert_eq!(rt; answer, Rewritten::Bad);
    Ok(())
}
