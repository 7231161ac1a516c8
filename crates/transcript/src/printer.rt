ghost use Rattle.std.specs.Prelude.{◌≡◌, [], ◌++◌, OnOk, IfSome, decimal};
ghost use Rattle.std.specs.Fmt.{signed_decimal};
ghost use Rattle.std.specs.List.{AllByRecursion};
ghost use Rattle.subscript_keys.specs.Key.{IsSub, HasForm};
ghost use Rattle.global_text.specs.Nodes.{node_text};
ghost use Rattle.global_text.specs.Printed.{Appends, IsPrinted};
ghost use Rattle.transcript.specs.Parts.{field, fields, signed_field, name_at, IsValueText, found_text};

use global_text::{print_node, print_sub, print_value};
use itoa::Buffer;
use plain_orders::NameList;
use std::alloc::{AllocError, Global};
use std::marker::Model;
use subscript_keys::{Node, Sub, ValueBytes};

/// A text that is being written, which contracts see as the list of its bytes. Out of memory, some
/// of what was to be written may stand at its end.
#[derive(Drop)]
pub struct Printer {
    text: Vec<u8>,
}

impl Model for Printer {
    ghost use Rattle.std.specs.Prelude.{List, ℕ};

    ghost Value = { List ℕ };

    ghost view = { λ p. p.text.items };
}

impl Printer {
    pub fn new(alloc: Global) -> Printer
        ensures { result ≡ [] }
    {
        Printer {
            text: Vec::new(alloc),
        }
    }

    /// The allocator of the text.
    pub fn alloc(&self) -> Global {
        *self.text.allocator()
    }

    pub fn as_slice(&self) -> &[u8]
        ensures { result.now ≡ self.now }
    {
        self.text.as_slice()
    }

    pub fn bytes(&mut self, bytes: &[u8]) -> Result<(), AllocError>
        ensures { OnOk result (self.new ≡ self.old ++ bytes.now) }
    {
        self.text.extend_from_slice(bytes)
    }

    pub fn number(&mut self, number: u64) -> Result<(), AllocError>
        ensures { OnOk result (self.new ≡ self.old ++ decimal number) }
    {
        let mut buffer = Buffer::new();
        self.text
            .extend_from_slice(buffer.format(number).as_bytes())
    }

    /// A number after its sign, if it is below 0.
    pub fn signed(&mut self, number: i64) -> Result<(), AllocError>
        ensures { OnOk result (self.new ≡ self.old ++ signed_decimal number) }
    {
        let mut buffer = Buffer::new();
        self.text
            .extend_from_slice(buffer.format(number).as_bytes())
    }

    /// A space and a number.
    pub fn field(&mut self, number: u64) -> Result<(), AllocError>
        ensures { OnOk result (self.new ≡ self.old ++ field number) }
    {
        self.bytes(b" ")?;
        self.number(number)
    }

    /// A space and a number after its sign.
    pub fn signed_field(&mut self, number: i64) -> Result<(), AllocError>
        ensures { OnOk result (self.new ≡ self.old ++ signed_field number) }
    {
        self.bytes(b" ")?;
        self.signed(number)
    }

    /// Numbers, a space before each.
    pub fn fields(&mut self, numbers: &[u64]) -> Result<(), AllocError>
        ensures { OnOk result (self.new ≡ self.old ++ fields numbers.now) }
    {
        for number in numbers {
            self.field(*number)?;
        }
        Ok(())
    }

    /// A word, then numbers, a space before each.
    pub fn words(&mut self, word: &[u8], numbers: &[u64]) -> Result<(), AllocError>
        ensures { OnOk result (self.new ≡ self.old ++ (word.now ++ fields numbers.now)) }
    {
        self.bytes(word)?;
        self.fields(numbers)
    }

    /// The name with this index; nothing where there is none.
    pub fn name(&mut self, names: &NameList, index: usize) -> Result<(), AllocError>
        ensures { OnOk result (self.new ≡ self.old ++ name_at names.now index) }
    {
        match names.as_slice().get(index) {
            Some(name) => self.bytes(name.as_slice()),
            None => Ok(()),
        }
    }

    /// A value.
    pub fn value(&mut self, value: &ValueBytes) -> Result<(), AllocError>
        ensures { OnOk result (Appends (IsPrinted value.now) self.old self.new) }
    {
        print_value(value, &mut self.text)
    }

    /// A value that may be missing.
    pub fn value_or_none(&mut self, value: &Option<ValueBytes>) -> Result<(), AllocError>
        ensures { OnOk result (Appends (IsValueText value.now) self.old self.new) }
    {
        match value {
            Some(value) => self.value(value),
            None => self.bytes(b"none"),
        }
    }

    /// A subscript that may be missing.
    #[tactic(auto, using(crate::proofs::PartLemmas::sub_form))]
    pub fn sub_or_empty(&mut self, sub: &Option<Sub>) -> Result<(), AllocError>
        requires { IfSome sub.now IsSub }
        ensures { OnOk result (self.new ≡ self.old ++ found_text sub.now) }
    {
        match sub {
            Some(sub) => print_sub(sub, &mut self.text),
            None => self.bytes(b"\"\""),
        }
    }

    pub fn node(&mut self, node: &Node) -> Result<(), AllocError>
        requires { AllByRecursion HasForm node.now.subs }
        ensures { OnOk result (self.new ≡ self.old ++ node_text node.now) }
    {
        print_node(node, &mut self.text)
    }
}
