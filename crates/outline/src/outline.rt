// The outline of a script, from its flat code. A line is written where a node's operation stands, and has the offset at which the node began.
ghost use Rattle.std.specs.Prelude.{IfOk};
ghost use Rattle.outline.specs.Refusing.{ReadOrRefused};

use crate::refusal::refusal_of;
use itoa::Buffer;
use reader::ReadScript;
use script::{Declarator, Function, Name, Node};
use std::alloc::{AllocError, Global};

// The text is bytes and no `String`: names stand in it as the source spells them.
#[derive(Drop)]
struct Outline<'a> {
    script: &'a ReadScript,
    text: Vec<u8>,
    begun: Vec<usize>,
    depth: usize,
}

impl Outline<'_> {
    // Bytes and no `Write`: an `io::Result` is copied at each call, and `write!` goes through a formatter.
    fn put(&mut self, bytes: &[u8]) -> Result<(), AllocError> {
        self.text.extend_from_slice(bytes)
    }

    fn indent(&mut self) -> Result<(), AllocError> {
        for _ in 0..self.depth {
            self.put(b"    ")?;
        }
        Ok(())
    }

    // The front of a line with an offset.
    fn line(&mut self, at: usize, words: &str) -> Result<(), AllocError> {
        self.indent()?;
        self.put(Buffer::new().format(at).as_bytes())?;
        self.put(b" ")?;
        self.put(words.as_bytes())
    }

    // The same for the node that began last. The flat code begins each node that it ends: the 0 is never written, and no
    // more would an error be.
    fn begun_line(&mut self, words: &str) -> Result<(), AllocError> {
        let at = self.begun.pop().unwrap_or(0);
        self.line(at, words)
    }

    fn name(&mut self, name: Name) -> Result<(), AllocError> {
        self.put(name.spelling(self.script.source()))
    }

    fn declarator(&mut self, declarator: Declarator) -> Result<(), AllocError> {
        let Declarator { mutable, ty, name } = declarator;
        if mutable {
            self.put(b"mutable ")?;
        }
        self.put(ty.text().as_bytes())?;
        self.put(b" ")?;
        self.name(name)
    }

    fn end_line(&mut self) -> Result<(), AllocError> {
        self.put(b"\n")
    }

    // A line that stands before a deeper scope ends.
    fn open(&mut self) -> Result<(), AllocError> {
        self.depth = self.depth.saturating_add(1);
        self.end_line()
    }

    fn close(&mut self) {
        self.depth = self.depth.saturating_sub(1);
    }

    fn statement(&mut self, words: &str) -> Result<(), AllocError> {
        self.begun_line(words)?;
        self.end_line()
    }

    fn statement_on(&mut self, words: &str, name: Name) -> Result<(), AllocError> {
        self.begun_line(words)?;
        self.name(name)?;
        self.end_line()
    }

    fn declaration(&mut self, declarator: Declarator) -> Result<(), AllocError> {
        self.begun_line("declare ")?;
        self.declarator(declarator)?;
        self.end_line()
    }

    fn begun_scope(&mut self, words: &str) -> Result<(), AllocError> {
        self.begun_line(words)?;
        self.open()
    }

    fn block(&mut self, at: usize) -> Result<(), AllocError> {
        self.line(at, "block")?;
        self.open()
    }

    fn otherwise(&mut self) -> Result<(), AllocError> {
        self.indent()?;
        self.put(b"else")?;
        self.open()
    }

    fn node(&mut self, node: Node) -> Result<(), AllocError> {
        match node {
            Node::Begin { at } => self.begun.push(at)?,
            Node::Declare { declarator } => self.declaration(declarator)?,
            Node::Assign { name } => self.statement_on("assign ", name)?,
            Node::CallStatement { name, .. } => self.statement_on("call ", name)?,
            Node::Free => self.statement("free")?,
            Node::Print => self.statement("print")?,
            Node::Return => self.statement("return")?,
            Node::Then { .. } => self.begun_scope("if")?,
            Node::Loop { .. } => self.begun_scope("while")?,
            Node::BeginBlock { at } => self.block(at)?,
            Node::Else { .. } => self.otherwise()?,
            Node::EndScope => self.close(),
            Node::Nil { .. }
            | Node::Constant { .. }
            | Node::Variable { .. }
            | Node::Back { .. }
            | Node::Enter { .. }
            | Node::Formal { .. }
            | Node::Leave { .. } => {}
            Node::Negate { .. }
            | Node::Cast { .. }
            | Node::Binary { .. }
            | Node::Call { .. }
            | Node::Compare { .. }
            | Node::Not
            | Node::And { .. }
            | Node::Or { .. } => {
                let _ = self.begun.pop();
            }
        }
        Ok(())
    }

    // A function's declaration with its formals, at the offset of its name.
    fn head(&mut self, function: Function) -> Result<(), AllocError> {
        self.line(function.head.name.at, "")?;
        self.declarator(function.head)?;
        self.put(b"(")?;
        let script = self.script;
        for (i, formal) in function.formals_in(script.formals()).iter().enumerate() {
            if i > 0 {
                self.put(b", ")?;
            }
            self.declarator(*formal)?;
        }
        self.put(b")")?;
        self.open()
    }

    fn function(&mut self, function: Function) -> Result<(), AllocError> {
        self.head(function)?;
        let script = self.script;
        for node in script
            .nodes()
            .iter()
            .skip(function.entry)
            .take_while(|node| !matches!(node, Node::Leave { .. }))
        {
            self.node(*node)?;
        }
        self.close();
        Ok(())
    }
}

fn outline_of_script(heap: Global, script: &ReadScript) -> Result<Vec<u8>, AllocError> {
    let mut outline = Outline {
        script,
        text: Vec::new(heap),
        begun: Vec::new(heap),
        depth: 0,
    };
    for function in script.functions() {
        outline.function(*function)?;
    }
    Ok(outline.text)
}

// The outline of a source, or the line that refuses it.
pub fn outline_of(heap: Global, source: &[u8]) -> Result<Vec<u8>, AllocError>
    ensures { IfOk result (λ text. ReadOrRefused source.now text.items) }
{
    let mut script = ReadScript::new(heap)?;
    match script.read(source) {
        Ok(()) => outline_of_script(heap, &script),
        Err(refusal) => Ok(refusal_of(heap, source, refusal)?.into_bytes()),
    }
}
