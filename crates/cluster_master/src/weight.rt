//! What the entries of a master's book weigh.
ghost use Rattle.std.specs.Prelude.{◌≡◌, ◌+◌, ◌/◌, ◌≤◌, if◌then◌else◌};
ghost use Rattle.cluster_master.specs.Weight.{answer_octets as octets_of_answer};
ghost use Rattle.cluster_master.specs.Weight.{call_octets as octets_of_call};
ghost use Rattle.cluster_master.specs.Weight.{weight_of as weight_of_entry};
ghost use Rattle.cluster_master.specs.Weight.{weight_of_all as weight_of_entries};

use purge_master::MasterEntry;
use purge_rules::{MasterAnswer, MasterCall, MasterFault};
use url_key::LONGEST_KEY;

/// How many octets weigh as much as an entry without a URL and without a list.
const UNIT: u64 = 1_024;

/// The longest list of what is due: 1,024 numbers with 16 members each.
const LONGEST_LIST: usize = 16_384;

/// How many octets a number takes with its member.
const PAIR: u64 = 8;

/// The octets of the URL in a call.
pub(crate) fn call_octets(call: &MasterCall) -> u64
    ensures value { result ≡ octets_of_call call.now }
    ensures bound { result ≤ 1024 }
{
    match call {
        MasterCall::Issue(key) => key.text().len().min(LONGEST_KEY) as u64,
        _ => 0,
    }
}

/// The octets of the list in an answer.
pub(crate) fn answer_octets(answer: &Result<MasterAnswer, MasterFault>) -> u64
    ensures value { result ≡ octets_of_answer answer.now }
    ensures bound { result ≤ 131072 }
{
    match answer {
        Ok(MasterAnswer::Due(pairs)) => PAIR * pairs.as_slice().len().min(LONGEST_LIST) as u64,
        _ => 0,
    }
}

/// What an entry with so many octets in its call and its answer weighs: 1, and 1 more for each
/// 1,024 octets.
pub(crate) fn entry_weight(call: u64, answer: u64) -> u64
    requires call { call ≤ 1024 }
    requires answer { answer ≤ 131072 }
    ensures { result ≡ 1 + (call + answer) / 1024 }
{
    1 + (call + answer) / UNIT
}

/// What an entry with so many octets adds to the weight of a page; nothing, where there is none.
pub(crate) fn added_weight(is_entered: bool, call: u64, answer: u64) -> u64
    requires call { call ≤ 1024 }
    requires answer { answer ≤ 131072 }
    ensures { result ≡ if is_entered then 1 + (call + answer) / 1024 else 0 }
{
    if is_entered {
        entry_weight(call, answer)
    } else {
        0
    }
}

/// What an entry weighs.
fn weight_of(entry: &MasterEntry) -> u64
    ensures { result ≡ weight_of_entry entry.now }
{
    entry_weight(call_octets(&entry.call), answer_octets(&entry.answer))
}

/// What entries weigh in all. Each weighs 1, and 1 more for each 1,024 octets of the URL that it
/// issues a purge of, or of the list of what is due, where a number with its member counts as 8
/// octets. At 18446744073709551615 the sum stays.
pub fn weight_of_all(entries: &[MasterEntry]) -> u64
    ensures { result ≡ weight_of_entries entries.now }
{
    let mut sum = 0u64;
    for entry in entries {
        sum = sum.saturating_add(weight_of(entry));
    }
    sum
}
