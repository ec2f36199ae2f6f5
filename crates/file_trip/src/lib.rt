// A map through its ground file and back: theorems over the promises of whole map, writer, view, saver and loader, no code.

#![tactic(auto)]
