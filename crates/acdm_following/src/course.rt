//! How a board was followed, which only proofs know.
ghost use Rattle.std.specs.Prelude.{◌≡◌, [], true, false};
ghost use Rattle.std.specs.Borrow.{ftrue};
ghost use Rattle.acdm_following.specs.Courses.{CourseView, asked, parted, parted_as, unasked};

use crate::first_board::Parting;
use acdm_lines::Source;
use std::io::Read;
use std::marker::Model;

// What came so far.
#[derive(Drop)]
struct CoursePast {
    ghost course: { CourseView },
}

impl Model for CoursePast {
    ghost also_owns = { λ _. ftrue };
}

const _: () = prove!(size_of::<CoursePast>() == 0);

// It owns nothing.
unsafe impl Send for CoursePast {}

impl CoursePast {
    fn of<T>(_value: &T) -> CoursePast
        ghost known: { CourseView }
        ensures { result.course ≡ known }
    {
        CoursePast {}
    }
}

/// What an implementation of `FirstBoard` keeps for proofs: which entries were asked for, and which connections were
/// handed back. It takes no memory, and its methods do nothing at run time.
#[derive(Drop)]
pub struct Course {
    past: CoursePast,
}

impl Model for Course {
    ghost use Rattle.acdm_following.specs.Courses.{CourseView};

    ghost Value = { CourseView };

    ghost view = { λ c. c.past.course };
}

impl Course {
    /// Nothing was asked for yet.
    pub fn new() -> Course
        ensures { result ≡ unasked }
    {
        Course {
            past: CoursePast::of(&0u64),
        }
    }

    /// For `connect`: a connection was made at which the entries from this number on were asked for.
    pub fn ask(&mut self, next: u64)
        ensures { self.new ≡ asked self.old next true }
    {
        self.past = CoursePast::of(&(&self.past, next));
    }

    /// For `connect`: following is over.
    pub fn end(&mut self, next: u64)
        ensures { self.new ≡ asked self.old next false }
    {
        self.past = CoursePast::of(&(&self.past, next));
    }

    /// What a connection gave, as a course of its own, in which it was handed back since it gave no more.
    pub(crate) fn of<R: Read>(connection: &Source<R>) -> Course
        ensures { result ≡ parted unasked connection.now.faults connection.now.log connection.now.ended
            Parting.Ended }
    {
        Course {
            past: CoursePast::of(connection),
        }
    }

    /// For `part`: a connection was handed back that gave this, for this reason.
    pub fn part(&mut self, given: &Course, why: Parting)
        ensures { self.new ≡ parted_as self.old given.now.parted why }
    {
        self.past = CoursePast::of(&(&self.past, &given.past, why));
    }
}
