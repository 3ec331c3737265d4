//! Which members the pending numbers wait for.
ghost use Rattle.std.specs.Prelude.{◌≡◌, ℕ, ◌≤◌, ◌++◌, All, IfOk, OnOk};
ghost use Rattle.std.specs.List.{flat_map};
ghost use Rattle.purge_rules.specs.Members.{is_among};
ghost use Rattle.purge_rules.specs.Needed.{needed, was_admitted};
ghost use Rattle.purge_rules.specs.Purges.{admission_at, admission_marks, marks_at};
ghost use Rattle.purge_rules.specs.Calls.{due, due_of, missing, status_of};
ghost use Rattle.purge_rules.specs.Waiting.{between};

use crate::{Admission, MemberSet, Nodes, Purges, Status};
use std::alloc::{AllocError, Global};
use values_plain::Listed;

/// The nodes that these admissions admit under numbers below this one.
fn admitted_below(admissions: &[Admission], number: u32) -> MemberSet
    requires { All (λ a. (1 ≤ a.member) × (a.member ≤ 16)) admissions.now }
    ensures { (id : ℕ) → is_among id result ≡ was_admitted admissions.now number id }
{
    let mut admitted = MemberSet::new();
    for admission in admissions {
        if admission.number < number {
            admitted.insert(admission.member);
        }
    }
    admitted
}

impl Purges {
    /// The members of these nodes that the number needs, whether it is pending or not: an admission
    /// needs the admitted node, a purge the founding nodes and those admitted before it.
    pub fn needed(&self, nodes: &Nodes, number: u32) -> MemberSet
        ensures { result ≡ needed nodes.now self.now.admissions number }
    {
        match self.admission_at(number) {
            Some(admission) => nodes.members.only(admission.member),
            None => {
                let admitted = admitted_below(self.admissions(), number);
                let outside = nodes.joining.missing_in(admitted);
                nodes.members.missing_in(outside)
            }
        }
    }

    /// The members that have acknowledged the number, if it is pending. For an admission the set is
    /// empty. Binary search.
    pub fn marks(&self, number: u32) -> Option<MemberSet>
        ensures { result ≡ marks_at self.now number }
    {
        match self.find(number) {
            Some(purge) => Some(purge.marked),
            None => self.admission_marks(number),
        }
    }

    /// The empty set, if the admission with this number is pending.
    fn admission_marks(&self, number: u32) -> Option<MemberSet>
        ensures { result ≡ admission_marks (admission_at self.now number) }
    {
        match self.admission_at(number) {
            Some(admission) if !admission.is_done => Some(MemberSet::new()),
            _ => None,
        }
    }

    /// The members of these nodes that the pending number needs and that have not acknowledged it;
    /// none if it is not pending. Binary search.
    pub fn missing(&self, nodes: &Nodes, number: u32) -> MemberSet
        ensures { result ≡ missing nodes.now self.now number }
    {
        match self.marks(number) {
            Some(marked) => self.needed(nodes, number).missing_in(marked),
            None => MemberSet::new(),
        }
    }

    /// How far the number is, among these nodes. Binary search.
    pub fn status(&self, nodes: &Nodes, number: u32) -> Status
        ensures { result ≡ status_of nodes.now self.now number }
    {
        if number == 0 || self.last() < number {
            return Status::Unknown;
        }
        match self.marks(number) {
            Some(_) => Status::Pending(self.missing(nodes, number).count()),
            None => Status::Done,
        }
    }

    /// Each pending number with the id of each member of these nodes that it misses, by number and
    /// then by id.
    pub fn due(&self, alloc: Global, nodes: &Nodes) -> Result<Listed<(u32, u8)>, AllocError>
        ensures { IfOk result (λ pairs. pairs ≡ due nodes.now self.now) }
    {
        let mut pairs = Vec::new(alloc);
        let mut after = 0;
        let pending = self.pending();
        for purge in pending {
            // (no number is 0)
            let upto = purge.number.saturating_sub(1);
            self.add_admissions(nodes, after, upto, &mut pairs)?;
            self.add_due(nodes, purge.number, &mut pairs)?;
            after = purge.number;
        }
        self.add_admissions(nodes, after, self.last(), &mut pairs)?;
        Ok(Listed::new(pairs))
    }

    /// Appends what is due of one number.
    fn add_due(
        &self,
        nodes: &Nodes,
        number: u32,
        pairs: &mut Vec<(u32, u8)>,
    ) -> Result<(), AllocError>
        ensures { OnOk result (pairs.new.items ≡
            pairs.old.items ++ due_of nodes.now self.now number) }
    {
        self.missing(nodes, number).pair_with(number, pairs)
    }

    /// Appends what is due of the admission, if its number is above `after` and at most `upto`.
    fn add_between(
        &self,
        nodes: &Nodes,
        after: u32,
        upto: u32,
        admission: &Admission,
        pairs: &mut Vec<(u32, u8)>,
    ) -> Result<(), AllocError>
        ensures { OnOk result (pairs.new.items ≡ pairs.old.items
            ++ between (due_of nodes.now self.now) after upto admission.now) }
    {
        if after < admission.number && admission.number <= upto {
            return self.add_due(nodes, admission.number, pairs);
        }
        Ok(())
    }

    /// Appends what is due of the admissions whose numbers are above `after` and at most `upto`.
    fn add_admissions(
        &self,
        nodes: &Nodes,
        after: u32,
        upto: u32,
        pairs: &mut Vec<(u32, u8)>,
    ) -> Result<(), AllocError>
        ensures { OnOk result (pairs.new.items ≡ pairs.old.items
            ++ flat_map (between (due_of nodes.now self.now) after upto) self.now.admissions) }
    {
        let admissions = self.admissions();
        for admission in admissions {
            self.add_between(nodes, after, upto, admission, pairs)?;
        }
        Ok(())
    }
}
