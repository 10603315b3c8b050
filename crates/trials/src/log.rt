// Lines of the account: what was asked, and which refusal answered it.
use std::alloc::Global;
use std::io;

// What is asked or made.
#[derive(Clone, Copy)]
pub enum Subject {
    Tray,
    ImageTray,
    Powers,
    Groups,
    Written,
    Drill,
    TrayPair,
    ImagePair,
    Rack,
    StoppedDrill,
    Array,
    StoppedArray,
    MisfitArray,
    Fetch,
    Survey,
    Run,
}

impl Subject {
    fn words(self) -> &'static str {
        match self {
            Subject::Tray => "tray",
            Subject::ImageTray => "image tray",
            Subject::Powers => "plan of powers",
            Subject::Groups => "plan of groups",
            Subject::Written => "written plan",
            Subject::Drill => "drill",
            Subject::TrayPair => "pair of trays",
            Subject::ImagePair => "pair of image trays",
            Subject::Rack => "rack of disks",
            Subject::StoppedDrill => "drill with bay 1 stopped",
            Subject::Array => "array",
            Subject::StoppedArray => "array with bay 2 below stopped",
            Subject::MisfitArray => "array over too few bays",
            Subject::Fetch => "fetch",
            Subject::Survey => "survey",
            Subject::Run => "run",
        }
    }
}

#[derive(Drop)]
pub struct Log<'a> {
    rt: &'a HostRuntime,
    // What is asked.
    pub of: Subject,
    all: u64,
    wrong: u64,
}

impl<'a> Log<'a> {
    pub fn new(rt: &'a HostRuntime) -> Log<'a> {
        Log {
            rt,
            of: Subject::Tray,
            all: 0,
            wrong: 0,
        }
    }

    pub fn heap(&self) -> Global {
        self.rt.alloc()
    }

    // How many answers were not as they should be.
    pub fn wrong(&self) -> u64 {
        self.wrong
    }

    // Tells an answer: the number of its refusal, or none, and whether what it must leave or make is as it should be.
    pub fn tell(
        &mut self,
        what: &str,
        expected: Option<u32>,
        found: Option<u32>,
        right: bool,
    ) -> io::Result<()> {
        let (rt, of) = (self.rt, self.of.words());
        self.all = self.all.saturating_add(1);
        match found {
            Some(number) => println!(rt; "{of}: {what}: refused by {number}")?,
            None => println!(rt; "{of}: {what}: done")?,
        }
        if expected != found || !right {
            self.wrong = self.wrong.saturating_add(1);
            println!(rt; "{of}: {what}: this is wrong")?;
        }
        Ok(())
    }

    // A call that is refused.
    pub fn refused(&mut self, what: &str, number: u32, found: Option<u32>) -> io::Result<()> {
        self.tell(what, Some(number), found, true)
    }

    // One that is not.
    pub fn done(&mut self, what: &str, found: Option<u32>) -> io::Result<()> {
        self.tell(what, None, found, true)
    }

    // Something that is looked at after calls.
    pub fn kept(&mut self, what: &str, right: bool) -> io::Result<()> {
        self.tell(what, None, None, right)
    }

    // The last line.
    pub fn end(&self) -> io::Result<()> {
        let (rt, all, wrong) = (self.rt, self.all, self.wrong);
        println!(rt; "answers told: {all}, wrong {wrong}")
    }
}
