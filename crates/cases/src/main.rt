#![tactic(auto)]

// Runs cases of docs/FORMAT.md (Figures, The script program, Rules of a well-formed image, The first failing pair) over the calls at (8,16,90)
// and prints what they answer, a line each: an image that breaks one rule alone and the sound one beside it, images with two faults, the
// session of four records, calls over an entry in passing and a slot that was taken, sector 0 written 106 times, and the victim's count on either
// side of the ceiling. The file stdout is what FORMAT.md says of each.
use answers::Refusal;
use calls::Counts;
use geometry::Geometry;
use std::io;
use std::io::Print;

// d is 15 and k is 1: a block has 2,048 words, its map is word 3, its entries are words 4 to 18.
fn geo() -> Geometry {
    Geometry {
        blocks: 8,
        sectors: 16,
        logical: 90,
    }
}

// Where a word of block b is in the image, if there is such a word.
fn place(b: usize, word: usize) -> Option<usize> {
    if b < 8 && word < 2048 {
        Some(b * 2048 + word)
    } else {
        None
    }
}

// The number of what a call that changes the image answers.
fn number(done: Result<Counts, Refusal>) -> u32 {
    answers::number(done.map(|_| ()))
}

// Its counts, 0 and 0 where it is refused.
fn counts(done: Result<Counts, Refusal>) -> Counts {
    done.unwrap_or_default()
}

// A fault that one word of a block makes: the bits of the block's map that stay, the word and its value.
#[derive(Clone, Copy, Debug, PartialEq, Eq)]
struct Fault {
    map: u32,
    word: usize,
    value: u32,
}

// A fault of each rule, 1 to 8, and none of another number. Each has a place of its own, so that two can be in one block: the erase count; the entry
// of slot 1, under its set bit; the last word of slot 14; the entry of slot 4; that of slot 3, live for 5; that of slot 0; word 1; the entry of slot 5,
// in passing for 5. (The rule is a number here since a case is one that the program takes apart and prints.)
fn fault_of(rule: u32) -> Option<Fault> {
    let (map, word, value) = match rule {
        1 => (0xFFFFFFFF, 0, 1000001),
        2 => (0xFFFFFFFF, 5, 5),
        3 => (0xFFFFFFFF, 2047, 0xFFFFFFFE),
        4 => (0xFFFFFFEF, 8, 0xC000005A),
        5 => (0xFFFFFFF7, 7, 0xC0000005),
        6 => (0xFFFFFFFE, 4, 5),
        7 => (0xFFFFFFFF, 1, 5),
        8 => (0xFFFFFFDF, 9, 0x80000005),
        _ => return None,
    };
    Some(Fault { map, word, value })
}

// What the cases run on: an image, which they change, and where their lines go.
#[derive(Drop)]
struct Cases<'a, P: Print> {
    image: &'a mut [u32],
    rt: &'a P,
}

impl<'a, P: Print> Cases<'a, P> {
    // Stores a word of block b by hand.
    fn set(&mut self, b: usize, word: usize, value: u32) {
        let Some(at) = place(b, word) else {
            return;
        };
        if let Some(stored) = self.image.get_mut(at) {
            *stored = value;
        }
    }

    // A word of block b, if there is such a word.
    fn get(&self, b: usize, word: usize) -> Option<u32> {
        self.image.get(place(b, word)?).copied()
    }

    // Stores block b's map word, and one word more of the block.
    fn put(&mut self, b: usize, map: u32, word: usize, value: u32) {
        self.set(b, 3, map);
        self.set(b, word, value);
    }

    // Stores the same word in every block.
    fn set_all(&mut self, word: usize, value: u32) {
        for b in 0..8 {
            self.set(b, word, value);
        }
    }

    // Makes the image fresh: at these sizes a format is accepted.
    fn fresh(&mut self) {
        let _ = shellwaltz::format(self.image, geo());
    }

    // A case's line: its name, the rule's number, and what check answers of the image: the number, and the block and the rule that it names. The name
    // is R where the image breaks the rule, and ok where it is sound again.
    fn tell(&self, name: &str, rule: u32) -> io::Result<()> {
        let answer = shellwaltz::check(self.image, geo());
        let number = answers::number(answer);
        let bad_block = answers::bad_block(answer);
        let bad_rule = answers::bad_rule(answer);
        println!(self.rt; "{name}{rule} {number} {bad_block} {bad_rule}")
    }

    // R1: a count one above the ceiling; at the ceiling.
    fn rule1(&mut self) -> io::Result<()> {
        self.fresh();
        self.put(0, 0xFFFFFFFF, 0, 1000001);
        self.tell("R", 1)?;
        self.put(0, 0xFFFFFFFF, 0, 1000000);
        self.tell("ok", 1)
    }

    // R2: a map bit set over a dead entry; clear over it, and over a free one.
    fn rule2(&mut self) -> io::Result<()> {
        self.fresh();
        self.put(0, 0xFFFFFFFF, 4, 0x00000005);
        self.tell("R", 2)?;
        self.put(0, 0xFFFFFFFE, 4, 0x00000005);
        self.tell("ok", 2)?;
        self.put(0, 0xFFFFFFFE, 4, 0xFFFFFFFF);
        self.tell("ok", 2)
    }

    // R2: the map bit after the last slot's cleared; the last slot's, over a dead entry.
    fn rule2_above(&mut self) -> io::Result<()> {
        self.fresh();
        self.put(0, 0xFFFF7FFF, 18, 0xFFFFFFFF);
        self.tell("R", 2)?;
        self.put(0, 0xFFFFBFFF, 18, 0x00000005);
        self.tell("ok", 2)
    }

    // R3: the last word of the image programmed, its slot free; its slot taken, with a free entry and with a dead one.
    fn rule3(&mut self) -> io::Result<()> {
        self.fresh();
        self.put(7, 0xFFFFFFFF, 2047, 0xFFFFFFFE);
        self.tell("R", 3)?;
        self.put(7, 0xFFFFBFFF, 18, 0xFFFFFFFF);
        self.tell("ok", 3)?;
        self.put(7, 0xFFFFBFFF, 18, 0x00000005);
        self.tell("ok", 3)
    }

    // R4: an entry like a live one with the number L; with L - 1.
    fn rule4(&mut self) -> io::Result<()> {
        self.fresh();
        self.put(0, 0xFFFFFFFE, 4, 0xC000005A);
        self.tell("R", 4)?;
        self.put(0, 0xFFFFFFFE, 4, 0xC0000059);
        self.tell("ok", 4)
    }

    // R4: a complete entry with the number L, beside one in passing; the one in passing alone, which is dead.
    fn rule4_passing(&mut self) -> io::Result<()> {
        self.fresh();
        self.put(0, 0xFFFFFFFE, 4, 0x8000005A);
        self.put(1, 0xFFFFFFFE, 4, 0xC000005A);
        self.tell("R", 4)?;
        self.put(1, 0xFFFFFFFF, 4, 0xFFFFFFFF);
        self.tell("ok", 4)
    }

    // R5: 5 live in two blocks; in one, and released in the other.
    fn rule5(&mut self) -> io::Result<()> {
        self.fresh();
        self.put(0, 0xFFFFFFFE, 4, 0xC0000005);
        self.put(1, 0xFFFFFFFE, 4, 0xC0000005);
        self.tell("R", 5)?;
        self.put(1, 0xFFFFFFFE, 4, 0x40000005);
        self.tell("ok", 5)
    }

    // R5: 5 in passing in two blocks; in one.
    fn rule5_passing(&mut self) -> io::Result<()> {
        self.fresh();
        self.put(0, 0xFFFFFFFE, 4, 0x80000005);
        self.put(1, 0xFFFFFFFE, 4, 0x80000005);
        self.tell("R", 5)?;
        self.put(1, 0xFFFFFFFF, 4, 0xFFFFFFFF);
        self.tell("ok", 5)
    }

    // R6: every block open; the last one blank.
    fn rule6(&mut self) -> io::Result<()> {
        self.fresh();
        self.set_all(3, 0xFFFFFFFE);
        self.set_all(4, 0x00000005);
        self.tell("R", 6)?;
        self.put(7, 0xFFFFFFFF, 4, 0xFFFFFFFF);
        self.tell("ok", 6)
    }

    // R7: word 1 programmed in an open block; all ones.
    fn rule7_open(&mut self) -> io::Result<()> {
        self.fresh();
        self.set(0, 4, 0xC0000005);
        self.put(0, 0xFFFFFFFE, 1, 5);
        self.tell("R", 7)?;
        self.put(0, 0xFFFFFFFE, 1, 0xFFFFFFFF);
        self.tell("ok", 7)
    }

    // Gives every slot of block 0 a dead entry.
    fn fill_dead(&mut self) {
        for word in 4..19 {
            self.set(0, word, 0x00000005);
        }
        self.set(0, 3, 0xFFFF8000);
    }

    // Makes block 0 full: 9 live in its first slot, 5 in its last, dead entries between, and 9 in word 2.
    fn fill(&mut self) {
        self.fill_dead();
        self.set(0, 4, 0xC0000009);
        self.set(0, 18, 0xC0000005);
        self.set(0, 2, 9);
    }

    // R7: a full block with 5 and 9 live and words 1 and 2 saying 6 to 9; 5 to 9; 5 and all ones.
    fn rule7_full(&mut self) -> io::Result<()> {
        self.fresh();
        self.fill();
        self.put(0, 0xFFFF8000, 1, 6);
        self.tell("R", 7)?;
        self.put(0, 0xFFFF8000, 1, 5);
        self.tell("ok", 7)?;
        self.put(0, 0xFFFF8000, 2, 0xFFFFFFFF);
        self.tell("R", 7)
    }

    // R7: a full block with nothing live and words 1 and 2 all ones; word 1 alone; neither.
    fn rule7_unset(&mut self) -> io::Result<()> {
        self.fresh();
        self.fill_dead();
        self.tell("R", 7)?;
        self.put(0, 0xFFFF8000, 2, 0);
        self.tell("R", 7)?;
        self.put(0, 0xFFFF8000, 1, 1000);
        self.tell("ok", 7)
    }

    // R8: 5 in passing, and complete in a later block; released there.
    fn rule8(&mut self) -> io::Result<()> {
        self.fresh();
        self.put(0, 0xFFFFFFFE, 4, 0x80000005);
        self.put(1, 0xFFFFFFFE, 4, 0xC0000005);
        self.tell("R", 8)?;
        self.put(1, 0xFFFFFFFE, 4, 0x40000005);
        self.tell("ok", 8)
    }

    // Plants a fault in block b; none where no rule has that number.
    fn plant(&mut self, rule: u32, b: usize) {
        let Some(fault) = fault_of(rule) else {
            return;
        };
        if let Some(kept) = self.get(b, 3) {
            self.put(b, kept & fault.map, fault.word, fault.value);
        }
    }

    // A sound image in which all blocks but the last are open, and 5 is complete in slot 2 of block 0: so a fault of R5 or of R8 is one more slot,
    // and one of R6 is one slot of block 7.
    fn before_faults(&mut self) {
        self.fresh();
        self.set_all(3, 0xFFFFFFFE);
        self.set_all(4, 0x00000005);
        self.put(0, 0xFFFFFFFA, 6, 0xC0000005);
        self.put(7, 0xFFFFFFFF, 4, 0xFFFFFFFF);
    }

    // A case is a number of four digits: the rule and the block of one fault, and those of another, or two zeros. Its line has the number and what
    // check answers.
    fn two_faults(&mut self, case: u32) -> io::Result<()> {
        self.before_faults();
        self.plant(case / 1000 % 10, (case / 100 % 10) as usize);
        self.plant(case / 10 % 10, (case % 10) as usize);
        self.tell("", case)
    }

    fn each_case(&mut self, cases: &[u32]) -> io::Result<()> {
        for &case in cases {
            self.two_faults(case)?;
        }
        Ok(())
    }

    // The first failing pair: each rule alone; with a fault in an earlier block, which is named whatever its rule, and in a later one, which is not;
    // with one in the same block that comes before it in the order, and after it; and R5 with the two slots in two blocks, in one, and with more.
    fn name_faults(&mut self) -> io::Result<()> {
        let alone = [1300, 2300, 3300, 4300, 5300, 6700, 7300, 8300];
        self.each_case(&alone)?;
        let earlier_block = [1372, 2372, 3372, 4372, 5372, 6777, 7352, 1382, 8372, 8382];
        self.each_case(&earlier_block)?;
        let later_block = [1314, 2314, 3314, 4314, 5314, 7314, 8314];
        self.each_case(&later_block)?;
        let earlier_rule = [2313, 3323, 4333, 5343, 6713, 7353, 8373, 8353];
        self.each_case(&earlier_rule)?;
        let later_rule = [1373, 2373, 3373, 4373, 5373, 7367, 7383, 8367];
        self.each_case(&later_rule)?;
        let live_twice = [5500, 5000, 5574, 5552];
        self.each_case(&live_twice)
    }

    // Writes sector n, every word of it `fill`.
    fn write(&mut self, n: u32, fill: u32) -> Result<Counts, Refusal> {
        let buffer = [fill; 128];
        shellwaltz::write(self.image, geo(), n, &buffer)
    }

    // A record's line.
    fn record(
        &self,
        letter: &str,
        n: u32,
        answer: u32,
        counts: Counts,
        first: u32,
    ) -> io::Result<()> {
        let words = counts.words;
        let erasures = counts.erasures;
        println!(self.rt; "{letter} {n} {answer} {words} {erasures} {first}")
    }

    // That of a call which changes the image.
    fn outcome_line(&self, letter: &str, n: u32, done: Result<Counts, Refusal>) -> io::Result<()> {
        self.record(letter, n, number(done), counts(done), 0)
    }

    fn write_line(&mut self, n: u32, fill: u32) -> io::Result<()> {
        let done = self.write(n, fill);
        self.outcome_line("W", n, done)
    }

    // The first word is 0 where the read is refused.
    fn read_line(&self, n: u32) -> io::Result<()> {
        let mut buffer = [0u32; 128];
        let answer = shellwaltz::read(self.image, geo(), n, &mut buffer);
        self.record(
            "R",
            n,
            answers::number(answer),
            Counts::default(),
            buffer[0],
        )
    }

    fn release_line(&mut self, n: u32) -> io::Result<()> {
        let done = shellwaltz::release(self.image, geo(), n);
        self.outcome_line("D", n, done)
    }

    // The totals, zeros where a report is refused.
    fn totals_line(&self) -> io::Result<()> {
        let totals = shellwaltz::report(self.image, geo()).unwrap_or_default();
        println!(self.rt;
            "T {} {} {} {}",
            totals.mapped, totals.free, totals.dead, totals.erase_sum
        )
    }

    // The records (1,5,7) (2,5,0) (3,5,0) (2,5,0).
    fn session(&mut self) -> io::Result<()> {
        self.fresh();
        self.write_line(5, 7)?;
        self.read_line(5)?;
        self.release_line(5)?;
        self.read_line(5)?;
        self.totals_line()
    }

    // 5 written, and its entry put in passing: it is read, and written again.
    fn passing_written(&mut self) -> io::Result<()> {
        self.fresh();
        self.write_line(5, 7)?;
        self.set(0, 4, 0x80000005);
        self.read_line(5)?;
        self.write_line(5, 9)?;
        self.read_line(5)
    }

    // Its new entry put in passing too, and 5 released; the two entries that are left.
    fn passing_released(&mut self) -> io::Result<()> {
        self.set(0, 5, 0x80000005);
        self.release_line(5)?;
        let old = self.get(0, 4).unwrap_or_default();
        let new = self.get(0, 5).unwrap_or_default();
        println!(self.rt; "{old} {new}")
    }

    // A slot that is taken, slot 2: the next write passes it by.
    fn taken(&mut self) -> io::Result<()> {
        self.set(0, 3, 0xFFFFFFF8);
        self.write_line(6, 1)?;
        let entry = self.get(0, 7).unwrap_or_default();
        println!(self.rt; "{entry}")?;
        self.totals_line()
    }

    // Writes sector 0 until a write erases, and not more than `times` times: which write that is, and what it reports.
    fn first_that_erases(&mut self, times: u32) -> Option<(u32, Counts)> {
        for i in 1..=times {
            let done = counts(self.write(0, i));
            if done.erasures != 0 {
                return Some((i, done));
            }
        }
        None
    }

    // Sector 0 written 106 times: the first write with an erasure, its words and erasures, the entry of slot 0 of block 7 and
    // the erase count of block 0. Three zeros where none erases.
    fn first_erasure(&mut self) -> io::Result<()> {
        self.fresh();
        let (write, done) = self.first_that_erases(106).unwrap_or_default();
        let entry = self.get(7, 4).unwrap_or_default();
        let count = self.get(0, 0).unwrap_or_default();
        println!(self.rt; "{write} {} {} {entry} {count}", done.words, done.erasures)
    }

    // The write after 105 of sector 0, when no block is open and one is blank: blocks 0 to 5 have 15 dead slots, so with the
    // counts alike block 0 is the victim.
    fn victim(&mut self, count: u32) -> io::Result<()> {
        self.fresh();
        let _ = self.first_that_erases(105);
        self.set_all(0, count);
        let done = self.write(0, 106);
        let answer = number(done);
        let Counts { words, erasures } = counts(done);
        println!(self.rt; "{answer} {words} {erasures}")
    }

    // An image that breaks each rule alone, and the sound one beside it: rules 1 to 4, and 5 to 8.
    fn check_rules(&mut self) -> io::Result<()> {
        self.rule1()?;
        self.rule2()?;
        self.rule2_above()?;
        self.rule3()?;
        self.rule4()?;
        self.rule4_passing()
    }

    fn check_more_rules(&mut self) -> io::Result<()> {
        self.rule5()?;
        self.rule5_passing()?;
        self.rule6()?;
        self.rule7_open()?;
        self.rule7_full()?;
        self.rule7_unset()?;
        self.rule8()
    }

    fn run(&mut self) -> io::Result<()> {
        self.check_rules()?;
        self.check_more_rules()?;
        self.name_faults()?;
        self.session()?;
        self.passing_written()?;
        self.passing_released()?;
        self.taken()?;
        self.first_erasure()?;
        self.victim(999999)?;
        self.victim(1000000)
    }
}

fn main(rt: HostRuntime) -> io::Result<()> {
    let mut image = [0u32; 16384];
    let mut cases = Cases {
        image: &mut image,
        rt: &rt,
    };
    cases.run()
}
