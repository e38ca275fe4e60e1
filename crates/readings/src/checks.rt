use problem::Problem;
use running::{ask, judge};
use std::alloc::{AllocError, Global};

// What a line tells: a file, the problem that it is checked by, and the line that has to be printed.
#[derive(Drop)]
pub struct Case<'a> {
    pub name: &'a str,
    problem: String,
    printed: String,
}

impl<'a> Case<'a> {
    // The case of a line: the file, the space, the five numbers of the box, the mirror, the rule and the
    // verdict.
    pub fn of(heap: Global, line: &'a str) -> Result<Case<'a>, AllocError> {
        let mut words = line.splitn(10, ' ');
        let name = words.next().unwrap_or("");
        let space = words.next().unwrap_or("");
        let width = words.next().unwrap_or("");
        let height = words.next().unwrap_or("");
        let period = words.next().unwrap_or("");
        let dx = words.next().unwrap_or("");
        let dy = words.next().unwrap_or("");
        let mirror = words.next().unwrap_or("");
        let rule = words.next().unwrap_or("");
        let verdict = words.next().unwrap_or("");
        let problem = format!(in heap;
            "rule {rule}\nbox {width} {height} {period} {dx} {dy}\nspace {space}\norder rows\nmirror {mirror}\n"
        )?;
        let printed = format!(in heap; "{name}: {verdict}\n")?;
        Ok(Case {
            name,
            problem,
            printed,
        })
    }

    // Whether the checker, asked for the problem, prints for the text what has to be printed.
    pub fn agrees(&self, heap: Global, mut text: &[u8]) -> bool {
        let mut printed = Vec::new(heap);
        let mut asked = self.problem.as_bytes();
        let Ok(Some(Problem { rule, space, .. })) = ask(heap, &mut asked, &mut printed) else {
            return false;
        };
        let name = self.name.as_bytes();
        judge(heap, &space, &rule, name, &mut text, &mut printed).is_ok()
            && printed.as_slice() == self.printed.as_bytes()
    }
}
