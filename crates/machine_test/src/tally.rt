// The counts: cases that were run and cases that agree, by group, and how often each reason was reached by a case that
// agrees.
use crate::head;
use std::io;

#[derive(Clone, Copy)]
struct Group {
    cases: u64,
    agree: u64,
}

#[derive(Clone, Copy)]
pub struct Tally {
    groups: [Group; 12],
    reached: [u64; 32],
}

// By the number in the case's record.
fn name(group: u8) -> &'static str {
    match group {
        0 => "step",
        1 => "run",
        2 => "kernels",
        3 => "corners, step",
        4 => "corners, run",
        5 => "edges",
        6 => "forms",
        7 => "blocks",
        8 => "why",
        9 => "byte order",
        10 => "fixed point",
        _ => "forward",
    }
}

impl Tally {
    pub fn new() -> Tally {
        Tally {
            groups: [Group { cases: 0, agree: 0 }; 12],
            reached: [0; 32],
        }
    }

    // One case more, which is named where it differs.
    pub fn add(&mut self, rt: &impl Print, h: [u8; 112], agrees: bool) -> io::Result<()> {
        let group = &mut self.groups[usize::from(h[0] % 12)];
        group.cases = group.cases.wrapping_add(1);
        if !agrees {
            return println!(rt; "{} case {} differs", name(h[0]), head::number(h));
        }
        group.agree = group.agree.wrapping_add(1);
        let times = &mut self.reached[usize::from(h[8] % 32)];
        *times = times.wrapping_add(1);
        Ok(())
    }

    pub fn report(&self, rt: &impl Print) -> io::Result<()> {
        for (k, group) in self.groups.iter().enumerate() {
            println!(rt;
                "{}: {} of {} agree",
                name(k as u8),
                group.agree,
                group.cases
            )?;
        }
        self.report_reasons(rt)
    }

    fn report_reasons(&self, rt: &impl Print) -> io::Result<()> {
        print!(rt; "reasons reached:")?;
        for (n, times) in self.reached.iter().enumerate().skip(1) {
            if *times != 0 {
                print!(rt; " {n}")?;
            }
        }
        println!(rt; "")
    }
}
