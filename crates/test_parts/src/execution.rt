//! What symbolic execution finds, as text.
use std::alloc::{AllocError, Global};
use sym_exec::{Access, Cell, Course, Handed, Symbolic, Test};
use sym_terms::{Id, Node, Terms, Values, value};

/// Terms, and their values for these values of the loads.
#[derive(Clone, Copy)]
pub(crate) struct Told<'a> {
    pub(crate) alloc: Global,
    pub(crate) terms: &'a Terms,
    pub(crate) loads: &'a [i32],
}

impl Told<'_> {
    /// The number of loads, the findings for each thread, a line for each, and the terms.
    pub(crate) fn all(&self, symbolic: &Symbolic) -> Result<String, AllocError> {
        let mut text = format!(in self.alloc; "{} loads", symbolic.loads())?;
        self.push_threads(&mut text, symbolic)?;
        Ok(text)
    }

    fn push_threads(&self, text: &mut String, symbolic: &Symbolic) -> Result<(), AllocError> {
        for course in symbolic.threads() {
            self.push_thread(text, course)?;
        }
        push_nodes(text, self.terms.nodes())
    }

    fn push_thread(&self, text: &mut String, course: &Course) -> Result<(), AllocError> {
        write!(text, "\nthread {}", course.name())?;
        for test in course.tests() {
            self.push_test(text, test)?;
        }
        for access in course.accesses() {
            self.push_access(text, access)?;
        }
        for handed in course.creates() {
            self.push_create(text, handed)?;
        }
        Ok(())
    }

    fn push_test(&self, text: &mut String, test: &Test) -> Result<(), AllocError> {
        let wanted = if test.wanted { "other than 0" } else { "0" };
        write!(text, "\n  test: step {}, line {}, ", test.step, test.line)?;
        self.push_term(text, test.term)?;
        write!(text, " is wanted {wanted}")
    }

    fn push_access(&self, text: &mut String, access: &Access) -> Result<(), AllocError> {
        write!(text, "\n  access: step {}, ", access.step)?;
        self.push_cell(text, access.cell)?;
        if let Some(load) = access.takes {
            write!(text, ", takes load {load}")?;
        }
        match access.writes {
            Some(term) => {
                text.push_str(", writes ")?;
                self.push_term(text, term)
            }
            None => Ok(()),
        }
    }

    fn push_cell(&self, text: &mut String, cell: Cell) -> Result<(), AllocError> {
        match cell {
            Cell::Fixed(cell) => write!(text, "cell {cell}"),
            Cell::Element {
                first,
                length,
                index,
            } => {
                text.push_str("element ")?;
                self.push_term(text, index)?;
                write!(text, " of {length} from cell {first}")
            }
        }
    }

    fn push_create(&self, text: &mut String, handed: &Handed) -> Result<(), AllocError> {
        write!(text, "\n  create: step {}, hands over", handed.step())?;
        for term in handed.terms() {
            text.push(' ')?;
            self.push_term(text, *term)?;
        }
        Ok(())
    }

    /// Adds a term's name, and its value.
    fn push_term(&self, text: &mut String, id: Id) -> Result<(), AllocError> {
        if id.place() >= self.terms.len() {
            return text.push_str("a term that isn't there");
        }
        let mut values = Values::new(self.alloc, self.terms, self.loads)?;
        let value = value(self.terms, id, &mut values);
        write!(text, "%{} ({value})", id.place())
    }
}

/// Adds terms, a line for each.
fn push_nodes(text: &mut String, nodes: &[Node]) -> Result<(), AllocError> {
    for place in 0..nodes.len() {
        write!(text, "\n%{place} = ")?;
        push_node(text, nodes[place])?;
    }
    Ok(())
}

fn push_node(text: &mut String, node: Node) -> Result<(), AllocError> {
    match node {
        Node::Constant(number) => write!(text, "{number}"),
        Node::Symbol(load) => write!(text, "load {load}"),
        Node::Unary(op, a) => write!(text, "{op:?} %{}", a.place()),
        Node::Binary(op, a, b) => write!(text, "{op:?} %{} %{}", a.place(), b.place()),
    }
}
