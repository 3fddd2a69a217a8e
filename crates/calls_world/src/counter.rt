//! How many bytes a call asks for. A program does not see that itself: a library that stands before the C library
//! counts them, and is asked by requests of sizes that no memory has.
use std::alloc::Global;

// A request of so many bytes begins a count. One of N bytes more asks whether fewer than N were asked for since, and is
// refused if they were not. If no such library is there, each is refused.
const QUESTION: usize = 70_368_744_177_664;

/// Has what calls ask for counted, if the program is run for that.
#[derive(Clone, Copy)]
pub struct Counter {
    alloc: Global,
    is_on: bool,
    // How many bytes each call of the line may ask for, if the line says so.
    within: Option<usize>,
    /// How many a poll may ask for, if its line does not say.
    pub of_polls: Option<usize>,
    // How many the call may ask for that was begun last.
    most: Option<usize>,
    /// A call of the line asked for more.
    pub is_exceeded: bool,
}

impl Counter {
    pub fn new(alloc: Global, is_on: bool) -> Counter {
        Counter {
            alloc,
            is_on,
            within: None,
            of_polls: None,
            most: None,
            is_exceeded: false,
        }
    }

    /// The calls of a line follow.
    pub fn begin_line(&mut self, within: Option<usize>) {
        self.within = within;
        self.is_exceeded = false;
    }

    fn ask(&mut self, more: usize) {
        let room: Result<Vec<u8>, _> = Vec::with_capacity(
            self.alloc,
            QUESTION.saturating_add(more),
        );
        if room.is_err() {
            self.is_exceeded = true;
        }
    }

    /// A call begins. It may ask for as many bytes as its line says, and else for so many, or for any number.
    pub fn begin(&mut self, usual: Option<usize>) {
        self.most = self.within.or(usual);
        if self.is_on && self.most.is_some() {
            self.ask(0);
        }
    }

    /// The call has ended.
    pub fn end(&mut self) {
        match self.most {
            Some(most) if self.is_on => self.ask(most.saturating_add(1)),
            _ => {}
        }
    }
}
