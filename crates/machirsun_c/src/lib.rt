// The engine for programs in C, and in languages that call C: the calls of `machirsun`, each by its name and with its clauses.
#![tactic(auto)]

mod building;
mod counting;
mod files;
mod loading;
mod lookups;
mod pages;
mod playing;
mod sets;
mod typing;
