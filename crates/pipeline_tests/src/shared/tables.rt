// Tables of rows, each with what is given and what is wanted.
use core_tests::samples;
use std::process::Abort;

/// What the texts of a table's rows are given to.
pub trait Subject {
    /// It answers what is wanted.
    fn answers<R: Abort + AllocGlobal>(&self, rt: &R, given: &str, wanted: &str);
}

/// Each row of a table is answered: rows are parted by a text, and what is wanted stands in each behind an arrow.
pub fn each_row<S: Subject>(
    rt: &(impl Abort + AllocGlobal),
    subject: &S,
    rows: &str,
    between: &str,
    arrow: &str,
) {
    let rows = samples::rows(rt.alloc(), rows, between, arrow).expect(rt, "no rows");
    for (given, wanted) in &rows {
        subject.answers(rt, given, wanted);
    }
}

/// Each row of a table is answered, where a row is a line.
pub fn each_line<S: Subject>(rt: &(impl Abort + AllocGlobal), subject: &S, rows: &str) {
    each_row(rt, subject, rows, "\n", " => ");
}

/// Each row of a table is answered, where a set stands above the lines of its schema.
pub fn each_schema<S: Subject>(rt: &(impl Abort + AllocGlobal), subject: &S, rows: &str) {
    each_row(rt, subject, rows, "--\n", "\n=>\n");
}

/// Each row of a table is answered, where a set stands above the line of its answer.
pub fn each_set<S: Subject>(rt: &(impl Abort + AllocGlobal), subject: &S, rows: &str) {
    each_row(rt, subject, rows, "\n\n", "\n=> ");
}
