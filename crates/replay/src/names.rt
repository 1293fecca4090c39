// The calls of a list by their names, which are those of the C functions without `pull_`: four tasks, each by the document's cutoffs or, with a lab's table before its files, by that table's.
ghost use Rattle.std.specs.Prelude.{◌<◌};

#[derive(Clone, Copy)]
pub enum Task {
    KenwardRoger,
    Satterthwaite,
    Archive,
    ArchiveTest,
}

pub const TASKS: [Task; 4] = [
    Task::KenwardRoger,
    Task::Satterthwaite,
    Task::Archive,
    Task::ArchiveTest,
];

impl Task {
    fn name(self) -> &'static [u8] {
        match self {
            Task::KenwardRoger => b"kenward_roger",
            Task::Satterthwaite => b"satterthwaite",
            Task::Archive => b"archive",
            Task::ArchiveTest => b"archive_test",
        }
    }
}

#[derive(Clone, Copy)]
pub struct Call {
    pub task: Task,
    pub with_table: bool,
}

impl Call {
    // The call that a word names.
    pub fn named(word: &[u8]) -> Option<Call> {
        let (stem, with_table) = match word.strip_suffix(b"_with") {
            Some(stem) => (stem, true),
            None => (word, false),
        };
        let task = TASKS.iter().copied().find(|task| task.name() == stem)?;
        Some(Call { task, with_table })
    }

    pub fn print_name(self) {
        io::write_all(1, self.task.name());
        if self.with_table {
            io::write_all(1, b"_with");
        }
    }

    // How many commas stand between its files: a table and a second file bring one each.
    pub fn commas(self) -> usize {
        let second = matches!(self.task, Task::ArchiveTest);
        usize::from(self.with_table) + usize::from(second)
    }

    // Its place among the eight.
    pub fn place(self) -> usize
        ensures { result < 8 }
    {
        if self.with_table {
            4 + self.task as usize
        } else {
            self.task as usize
        }
    }
}
