// A plain program that does what the cache is to do.
use super::{Answer, Step};
use std::alloc::{AllocError, Global};

pub const PAGES: u32 = 128;

const COUNT: usize = 128;

const LIMIT: usize = 64;

#[derive(Clone, Copy, Drop)]
struct Known {
    content: Option<u8>,
    dirty: bool,
    written: bool,
    disk: u8,
}

const UNKNOWN: Known = Known {
    content: None,
    dirty: false,
    written: false,
    disk: 0,
};

// Pages below `PAGES`, the list with the page that was used last at its end, and the calls and reads of the device.
#[derive(Drop)]
pub struct Plain {
    known: [Known; COUNT],
    list: Vec<u32>,
    pub calls: u64,
    pub reads: u64,
}

// Whether a call or a read of the device fails.
pub fn call_fails(call: u64) -> bool {
    call % 7 == 3
}

pub fn read_fails(read: u64) -> bool {
    read % 5 == 4
}

impl Plain {
    pub fn new(alloc: Global) -> Plain {
        Plain {
            known: [UNKNOWN; COUNT],
            list: Vec::new(alloc),
            calls: 0,
            reads: 0,
        }
    }

    fn page(&self, page: u32) -> Known {
        self.known.get(page as usize).copied().unwrap_or(UNKNOWN)
    }

    fn set(&mut self, page: u32, known: Known) {
        if (page as usize) < COUNT {
            self.known[page as usize] = known;
        }
    }

    // Takes a page out of the list, and says whether it stood there.
    fn unlist(&mut self, page: u32) -> bool {
        match self.list.iter().position(|p| *p == page) {
            Some(at) => {
                if at < self.list.len() {
                    let _ = self.list.remove(at);
                }
                true
            }
            None => false,
        }
    }

    // Puts a page at the end of the list. The first is let go where there are too many.
    fn enlist(&mut self, page: u32) -> Result<(), AllocError> {
        self.list.push(page)?;
        if self.list.len() > LIMIT {
            let gone = self.list.remove(0);
            let known = self.page(gone);
            self.set(
                gone,
                Known {
                    content: None,
                    ..known
                },
            );
        }
        Ok(())
    }

    fn use_again(&mut self, page: u32) -> Result<(), AllocError> {
        if self.unlist(page) {
            self.list.push(page)?;
        }
        Ok(())
    }

    fn bring(&mut self, page: u32, content: u8) -> Result<(), AllocError> {
        let known = self.page(page);
        self.set(
            page,
            Known {
                content: Some(content),
                ..known
            },
        );
        self.enlist(page)
    }

    fn count_read(&mut self) -> bool {
        self.reads = self.reads.saturating_add(1);
        read_fails(self.reads)
    }

    fn count_call(&mut self) -> bool {
        self.calls = self.calls.saturating_add(1);
        call_fails(self.calls)
    }

    fn fetch(&mut self, page: u32) -> Result<Answer, AllocError> {
        let known = self.page(page);
        if known.content.is_some() {
            self.use_again(page)?;
            return Ok(Answer::There);
        }
        if self.count_read() {
            return Ok(Answer::Failed);
        }
        self.bring(page, known.disk)?;
        Ok(Answer::Away)
    }

    fn read(&mut self, page: u32) -> Result<Answer, AllocError> {
        let known = self.page(page);
        if let Some(content) = known.content {
            self.use_again(page)?;
            return Ok(Answer::Byte(content));
        }
        if self.count_read() {
            return Ok(Answer::Failed);
        }
        Ok(Answer::Byte(known.disk))
    }

    fn edit(&mut self, page: u32, number: u8) -> Answer {
        let known = self.page(page);
        if known.content.is_none() {
            return Answer::Away;
        }
        let _ = self.unlist(page);
        self.set(
            page,
            Known {
                content: Some(number),
                dirty: true,
                ..known
            },
        );
        Answer::Done
    }

    fn write(&mut self, page: u32) -> Answer {
        let known = self.page(page);
        let Some(content) = known.content else {
            return Answer::Away;
        };
        if self.count_call() {
            return Answer::Failed;
        }
        let _ = self.unlist(page);
        self.set(
            page,
            Known {
                dirty: false,
                written: true,
                disk: content,
                ..known
            },
        );
        Answer::Done
    }

    fn barrier(&mut self) -> Result<Answer, AllocError> {
        if self.count_call() {
            return Ok(Answer::Failed);
        }
        for page in 0..PAGES {
            let known = self.page(page);
            if known.written {
                self.set(
                    page,
                    Known {
                        written: false,
                        ..known
                    },
                );
                if !known.dirty {
                    self.enlist(page)?;
                }
            }
        }
        Ok(Answer::Done)
    }

    // What the cache answers to a step.
    pub fn run(&mut self, step: Step) -> Result<Answer, AllocError> {
        match step {
            Step::Fetch(page) => self.fetch(page),
            Step::Read(page) => self.read(page),
            Step::Edit(page, number) => Ok(self.edit(page, number)),
            Step::Write(page) => Ok(self.write(page)),
            Step::Barrier => self.barrier(),
            Step::Look(page) => match self.page(page).content {
                Some(content) => Ok(Answer::Byte(content)),
                None => Ok(Answer::Away),
            },
            Step::Place(page, number) => {
                if self.page(page).content.is_some() {
                    return Ok(Answer::There);
                }
                self.bring(page, number)?;
                Ok(Answer::Done)
            }
            // These are not among the calls of the long list.
            Step::Hold(_) | Step::ComeAndGo(_) | Step::ComeAndGiveUp(_) => Ok(Answer::Failed),
            Step::Touch(page) => {
                if self.page(page).content.is_none() {
                    return Ok(Answer::Away);
                }
                self.use_again(page)?;
                Ok(Answer::Done)
            }
        }
    }
}
