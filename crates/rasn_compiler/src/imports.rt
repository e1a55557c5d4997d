//! EXPORTS and IMPORTS (X.680 13.1, 13.16).
use crate::fault::{Fault, Halt};
use crate::parser::Parser;
use crate::token::Kind;
use crate::tree::{Import, Symbol};

impl<'tokens, 'text> Parser<'tokens, 'text> {
    /// Reads EXPORTS, if it is next. Returns what it names; none if it names all. A list that can't
    /// be read names all, and its fault is added.
    pub(crate) fn exports(
        &mut self,
        faults: &mut Vec<Fault<'text>>,
    ) -> Result<Option<Vec<Symbol<'text>>>, Halt<'text>> {
        if !self.eat("EXPORTS") {
            return Ok(None);
        }
        let exports = match self.exported() {
            Ok(exports) => exports,
            Err(Halt::OutOfMemory) => return Err(Halt::OutOfMemory),
            Err(Halt::Fault(fault)) => {
                faults.push(*fault)?;
                None
            }
        };
        self.skip_until(";");
        self.expect(";")?;
        Ok(exports)
    }

    /// Reads what is exported, up to the semicolon: ALL, or a list that may be empty.
    fn exported(&mut self) -> Result<Option<Vec<Symbol<'text>>>, Halt<'text>> {
        if self.eat("ALL") {
            return Ok(None);
        }
        if self.is(";") {
            return Ok(Some(Vec::new(self.alloc)));
        }
        let symbols = self.symbols()?;
        if !self.is(";") {
            return Err(self.refuse(", or ;"));
        }
        Ok(Some(symbols))
    }

    /// Reads IMPORTS, if it is next.
    pub(crate) fn imports(&mut self) -> Result<Vec<Import<'text>>, Halt<'text>> {
        let mut imports = Vec::new(self.alloc);
        if !self.eat("IMPORTS") {
            return Ok(imports);
        }
        for _ in 0..self.rest.len() {
            if self.eat(";") {
                return Ok(imports);
            }
            imports.push(self.import()?)?;
        }
        Err(self.refuse(";"))
    }

    /// Reads symbols, FROM and a module, with its identifier.
    fn import(&mut self) -> Result<Import<'text>, Halt<'text>> {
        let symbols = self.symbols()?;
        if !self.eat("FROM") {
            return Err(self.refuse(", or FROM"));
        }
        let module = self.expect_kind(Kind::Upper, "a module's name")?;
        self.import_identifier()?;
        Ok(Import { symbols, module })
    }

    /// Reads symbols with commas between them.
    fn symbols(&mut self) -> Result<Vec<Symbol<'text>>, Halt<'text>> {
        let mut symbols = Vec::new(self.alloc);
        for _ in 0..self.rest.len() {
            symbols.push(self.symbol()?)?;
            if !self.eat(",") {
                break;
            }
        }
        Ok(symbols)
    }

    /// Reads a symbol, with the braces of a parameterized one.
    fn symbol(&mut self) -> Result<Symbol<'text>, Halt<'text>> {
        if self.peek() != Kind::Upper && self.peek() != Kind::Lower {
            return Err(self.refuse("a symbol"));
        }
        let position = self.position();
        let name = self.take();
        self.braces()?;
        Ok(Symbol { name, position })
    }

    /// Takes a module's identifier, in braces or as the name of a value (X.680 13.16).
    fn import_identifier(&mut self) -> Result<(), Halt<'text>> {
        if self.is("{") {
            self.balanced()?;
        } else if self.peek() == Kind::Lower
            && !self.is_after(1, ",")
            && !self.is_after(1, "FROM")
        {
            self.skip(1);
        }
        Ok(())
    }
}
