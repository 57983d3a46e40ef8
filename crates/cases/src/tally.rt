// Counts of cases and of those that differ, by groups; of answers that are stored wrong on purpose, and of those of them that are noticed; and where the next
// case starts.
use std::io::Print;
use std::{fmt, io};

// What a case asks for: functions over numbers, then problem texts; the last stands for what is not known.
#[derive(Clone, Copy, PartialEq, Eq)]
pub enum Group {
    Leaves,
    Shapes,
    Rigs,
    Courses,
    Runs,
    Samples,
    Planned,
    Seeded,
    Sampled,
    Unknown,
}

// The groups in the order of their counts, and of their lines.
const GROUPS: [Group; 10] = [
    Group::Leaves,
    Group::Shapes,
    Group::Rigs,
    Group::Courses,
    Group::Runs,
    Group::Samples,
    Group::Planned,
    Group::Seeded,
    Group::Sampled,
    Group::Unknown,
];

impl fmt::Display for Group {
    fn fmt<W: fmt::Write>(&self, f: &mut fmt::Formatter<W>) -> fmt::Result {
        f.write_str(match self {
            Group::Leaves => "whole root, floats, angles",
            Group::Shapes => "attitudes, vectors, tensors",
            Group::Rigs => "actuators, control rows",
            Group::Courses => "profile and seed",
            Group::Runs => "forward runs, residuals",
            Group::Samples => "dense samples",
            Group::Planned => "texts planned",
            Group::Seeded => "texts planned from a seed",
            Group::Sampled => "texts sampled",
            Group::Unknown => "unknown",
        })
    }
}

// How many cases, and how many of them differ.
#[derive(Clone, Copy)]
pub struct Count {
    pub cases: u64,
    pub wrong: u64,
}

impl Count {
    // One case more.
    fn with(self, right: bool) -> Count {
        Count {
            cases: self.cases.wrapping_add(1),
            wrong: self.wrong.wrapping_add(u64::from(!right)),
        }
    }

    fn plus(self, more: Count) -> Count {
        Count {
            cases: self.cases.wrapping_add(more.cases),
            wrong: self.wrong.wrapping_add(more.wrong),
        }
    }
}

impl fmt::Display for Count {
    fn fmt<W: fmt::Write>(&self, f: &mut fmt::Formatter<W>) -> fmt::Result {
        write!(f, "{} cases, {} differ", self.cases, self.wrong)
    }
}

const NONE: Count = Count { cases: 0, wrong: 0 };

#[derive(Clone, Copy)]
pub struct Tally {
    pub counts: [Count; 10],
    pub planted: u64,
    pub noticed: u64,
    pub at: usize,
}

pub fn none() -> Tally {
    Tally {
        counts: [NONE; 10],
        planted: 0,
        noticed: 0,
        at: 0,
    }
}

impl Tally {
    // The same counts, the next case at `at`.
    pub fn from(self, at: usize) -> Tally {
        Tally { at, ..self }
    }

    // One more answer that is wrong on purpose; the next case starts at `at`.
    pub fn with_planted(self, noticed: bool, at: usize) -> Tally {
        Tally {
            planted: self.planted.wrapping_add(1),
            noticed: self.noticed.wrapping_add(u64::from(noticed)),
            at,
            ..self
        }
    }

    // One case more in a group; the next starts at `at`.
    pub fn with(self, group: Group, right: bool, at: usize) -> Tally {
        let mut counts = self.counts;
        let k = group as usize;
        counts[k] = counts[k].with(right);
        Tally { counts, at, ..self }
    }

    // The cases of all groups.
    fn total(self) -> Count {
        self.counts.iter().fold(NONE, |all, c| all.plus(*c))
    }

    // A line for each group that has cases, and one for all.
    pub fn print(self, rt: &HostRuntime) -> io::Result<()> {
        for (group, count) in GROUPS.iter().zip(&self.counts) {
            if count.cases > 0 {
                println!(rt; "{group}: {count}")?;
            }
        }
        let all = self.total();
        let equal = all.cases.wrapping_sub(all.wrong);
        print!(rt; "{equal} cases equal, {} differ; ", all.wrong)?;
        println!(rt;
            "of {} wrong answers on purpose {} noticed",
            self.planted, self.noticed
        )
    }
}
